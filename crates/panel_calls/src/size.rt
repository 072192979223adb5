// The explicit size of an axis, and how many lists of line names it has.
ghost use Rattle.std.specs.Prelude.{◌≡◌};
ghost use Rattle.panel_rules.specs.Calls.{explicit_size, line_count_in};

use axis_tables::AxisSize;
use coordinates::Axis;
use panel_tables::Grid;
use panel_tables::axis::grid_in;

// The repetitions and the explicit count of an axis.
#[tactic(auto, unfolding(panel_rules::specs::Calls::explicit_size))]
pub fn explicit_size(grid: Grid, axis: Axis) -> AxisSize
    ensures { result ≡ explicit_size grid axis }
{
    grid_in(grid, axis).size
}

// How many lists of line names an axis has.
#[tactic(auto, unfolding(panel_rules::specs::Calls::line_count_in))]
pub fn line_count(grid: Grid, axis: Axis) -> u64
    ensures { result ≡ line_count_in grid axis }
{
    let own = grid_in(grid, axis);
    name_entries::line_names::line_count(own.entries, own.size.explicit)
}
