// Cells that drawn areas share.

#![tactic(auto)]

ghost use Rattle.std.specs.Prelude.{◌≡◌};
ghost use Rattle.panel_tables.specs.Areas.{edges_in};
ghost use Rattle.panel_cells.specs.Steps.{meet, shares, area_number_of, first_sharing_in};

use coordinates::{Axis, LinePair};
use panel_tables::AreaEdges;
use panel_tables::area::{MOST_AREAS, area_at};

// The edges of an area in an axis.
fn edges_in(edges: AreaEdges, axis: Axis) -> LinePair
    ensures { result ≡ edges_in edges axis }
{
    match axis {
        Axis::Column => LinePair {
            start: edges.columnstart,
            end: edges.columnend,
        },
        Axis::Row => LinePair {
            start: edges.rowstart,
            end: edges.rowend,
        },
    }
}

// Whether two pairs of edges have a track in common: the later start is before the earlier end.
fn meet(a: LinePair, b: LinePair) -> bool
    ensures { result ≡ meet a b }
{
    a.start.max(b.start) < a.end.min(b.end)
}

// Whether two areas share a cell.
#[tactic(auto, unfolding(crate::specs::Steps::shares))]
pub fn shares(a: AreaEdges, b: AreaEdges) -> bool
    ensures { result ≡ shares a b }
{
    let rows = meet(edges_in(a, Axis::Row), edges_in(b, Axis::Row));
    let columns = meet(edges_in(a, Axis::Column), edges_in(b, Axis::Column));
    rows && columns
}

// The first of so many areas that shares a cell with these edges.
pub fn first_sharing(areas: u32, words: &[u64], edges: AreaEdges) -> Option<u32>
    ensures { area_number_of result ≡ first_sharing_in areas words.now edges }
{
    (0..areas.min(MOST_AREAS)).find(|index| shares(area_at(words, *index).edges, edges))
}
