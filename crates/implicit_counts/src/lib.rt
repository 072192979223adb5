// The implicit tracks of an axis by argument: layout code finds them after placing, where a sheet has them in its `extra` line.

#![tactic(auto)]

ghost use Rattle.std.specs.Prelude.{◌≡◌};
ghost use Rattle.panel_tables.specs.Axes.{with_grid};
ghost use Rattle.implicit_counts.specs.Counts.{with_counts, with_implicit};

use axis_tables::AxisGrid;
use coordinates::line::MOST_TRACKS;
use coordinates::refusal::check_count;
use coordinates::{Axis, Fault};
use panel_tables::Grid;
use panel_tables::axis::grid_in;

// The most implicit tracks on either side of the explicit ones.
const MOST_IMPLICIT: u32 = MOST_TRACKS as u32;

// An axis with so many implicit tracks before and after its explicit ones; its spare sizes and all else stay.
fn with_counts(grid: AxisGrid, negative: u32, positive: u32) -> AxisGrid
    ensures { result ≡ with_counts grid negative positive }
{
    let mut after = grid;
    after.implicit.negative = negative;
    after.implicit.positive = positive;
    after
}

// A grid with an axis anew.
fn with_grid(grid: Grid, axis: Axis, own: AxisGrid) -> Grid
    ensures { result ≡ with_grid grid axis own }
{
    let mut after = grid;
    match axis {
        Axis::Column => after.columns = own,
        Axis::Row => after.rows = own,
    }
    after
}

// A grid with so many implicit tracks on an axis, as an `extra` line would give them. 4: more than 10,000 on a side.
#[tactic(auto, unfolding(crate::specs::Counts::with_implicit))]
pub fn with_implicit(grid: Grid, axis: Axis, negative: u32, positive: u32) -> Result<Grid, Fault>
    ensures { result ≡ with_implicit grid axis negative positive }
{
    check_count(MOST_IMPLICIT < negative || MOST_IMPLICIT < positive)?;
    let own = with_counts(grid_in(grid, axis), negative, positive);
    Ok(with_grid(grid, axis, own))
}
