// The lines of an axis: its size and its records.
ghost use Rattle.std.specs.Prelude.{◌≡◌};
ghost use Rattle.panel_tables.specs.Axes.{grid_in};
ghost use Rattle.panel_tables.specs.Regions.{axis_words_in, marks_in};
ghost use Rattle.panel_rules.specs.Calls.{explicit_size};
ghost use Rattle.panel_calls.specs.Carried.{carried_to, carried_record};
ghost use Rattle.panel_text.specs.Lines.{size_line, record_line};
ghost use Rattle.panel_text.specs.Written.{WritesLine};
ghost use Rattle.panel_answer.specs.Listed.{answered_line, answered_next, Record};
ghost use Rattle.panel_answer.specs.Walk.{after_axis, record_from};

use crate::AnswerLine;
use crate::place::place_from;
use coordinates::Axis;
use panel_calls::axis_track::{LentAxis, record_count};
use panel_calls::size::explicit_size;
use panel_tables::Grid;
use panel_tables::region::{PANEL_BYTES, PANEL_WORDS, marks};
use track_rules::TrackWalk;

// The line of an axis's size.
pub(crate) fn put_size(out: &mut [u8], grid: Grid, axis: Axis) -> usize
    ensures { WritesLine out.old (size_line axis (explicit_size grid axis).repetitions (explicit_size grid axis).explicit) out.new result }
{
    let size = explicit_size(grid, axis);
    panel_text::size_line(out, axis, size.repetitions, size.explicit)
}

// An axis of a panel, with the marks of its `item` lines.
pub(crate) fn lent_on<'a>(
    grid: Grid,
    words: &'a [u64; PANEL_WORDS],
    bytes: &'a [u8; PANEL_BYTES],
    axis: Axis,
) -> LentAxis<'a>
    ensures grid { result.grid ≡ grid_in grid axis }
    ensures tables { result.tables.now ≡ axis_words_in axis words.now }
    ensures items { result.items.now ≡ marks_in axis bytes.now }
{
    LentAxis::of_panel(grid, words, axis, marks(bytes, axis))
}

// The line of a record, by what is carried to it.
pub(crate) fn put_record(out: &mut [u8], lent: LentAxis, index: u32, state: TrackWalk) -> usize
    ensures { WritesLine out.old (record_line index (carried_record lent.entry.grid lent.entry.tables.now lent.entry.items.now state index)) out.new result }
{
    panel_text::record_line(out, index, lent.carried(state, index as usize))
}

// The first record of an axis.
pub(crate) fn first_record(lent: LentAxis, axis: Axis) -> AnswerLine
    ensures { answered_line result ≡ Record axis 0 (carried_to lent.entry.grid lent.entry.tables.now lent.entry.items.now 0) }
{
    AnswerLine::Record(axis, 0, lent.first())
}

// What comes after the records of an axis.
fn after_axis(grid: Grid, axis: Axis) -> Option<AnswerLine>
    ensures { answered_next result ≡ after_axis grid axis }
{
    match axis {
        Axis::Column => Some(AnswerLine::Size(Axis::Row)),
        Axis::Row => place_from(grid, 0),
    }
}

// The record after record `index`, or what comes after the axis.
pub(crate) fn next_record(
    grid: Grid,
    lent: LentAxis,
    axis: Axis,
    index: u32,
    state: TrackWalk,
) -> Option<AnswerLine>
    requires { lent.grid ≡ grid_in grid axis }
    ensures { answered_next result ≡ record_from grid lent.entry.tables.now axis index state }
{
    let count = u64::from(record_count(lent.grid));
    if u64::from(index) + 1 < count {
        let next = lent.next(state, index as usize);
        return Some(AnswerLine::Record(axis, index + 1, next));
    }
    after_axis(grid, axis)
}
