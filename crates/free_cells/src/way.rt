// What is in the way.
ghost use Rattle.std.specs.Prelude.{◌≡◌, ◌&&◌, ltb, length, map, min, position};
ghost use Rattle.std.specs.List.{filter, reduce};
ghost use Rattle.free_cells.specs.Words.{rectangle_of};
ghost use Rattle.free_cells.specs.Free.{InWay};
ghost use Rattle.free_cells.specs.Steps.{overlaps, NextEnds};

use crate::Rectangle;
use coordinates::LinePair;

// Whether two pairs of lines have a track in common: each starts before the other ends.
fn meet(a: LinePair, b: LinePair) -> bool
    ensures { result ≡ (ltb a.start b.end && ltb b.start a.end) }
{
    (a.start < b.end) & (b.start < a.end)
}

// Whether two rectangles share a cell.
#[tactic(auto, unfolding(crate::specs::Steps::overlaps))]
pub fn overlaps(a: Rectangle, b: Rectangle) -> bool
    ensures { result ≡ overlaps a b }
{
    meet(a.columns, b.columns) & meet(a.rows, b.rows)
}

// The index of the first word whose rectangle shares a cell with a rectangle.
fn first_overlap(words: &[u64], rectangle: Rectangle) -> Option<usize>
    ensures { result ≡ position (λ w. overlaps (rectangle_of w) rectangle) words.now }
{
    words
        .iter()
        .position(|word| overlaps(Rectangle::from(*word), rectangle))
}

// The index of the first placed rectangle that is in the way of a rectangle.
#[tactic(auto, using(crate::proofs::Cells::way_by))]
pub fn in_way(words: &[u64], rectangle: Rectangle) -> Option<usize>
    ensures { InWay words.now (length words.now) rectangle result }
{
    first_overlap(words, rectangle)
}

// The least of the row ends of the words that lie past a row.
fn least_end(words: &[u64], row: u32) -> Option<u32>
    ensures { result ≡ reduce min (filter (λ end. ltb row end) (map (λ w. (rectangle_of w).rows.end) words.now)) }
{
    words
        .iter()
        .map(|word| Rectangle::from(*word).rows.end)
        .filter(|end| row < *end)
        .min()
}

// The least row line past a row at which a placed rectangle ends.
#[tactic(auto, using(crate::proofs::Cells::next_by))]
pub(crate) fn next_end(words: &[u64], row: u32) -> Option<u32>
    ensures { NextEnds words.now (length words.now) row result }
{
    least_end(words, row)
}
