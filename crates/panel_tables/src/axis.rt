// One axis of a panel: taken out, and put back.
ghost use Rattle.std.specs.Prelude.{◌≡◌};
ghost use Rattle.axis_tables.specs.Readings.{axis_reading};
ghost use Rattle.panel_tables.specs.Readings.{panel_reading};
ghost use Rattle.panel_tables.specs.Axes.{grid_in, room_in, state_in, reading_in, with_state, with_reading};

use crate::{Grid, Panel, Reading, Room};
use axis_tables::{AxisGrid, AxisReading, AxisRoom, AxisState};
use coordinates::Axis;

// What answers on an axis.
pub fn grid_in(grid: Grid, axis: Axis) -> AxisGrid
    ensures { result ≡ grid_in grid axis }
{
    axis.of(grid.columns, grid.rows)
}

// What edits an axis.
pub fn room_in(room: Room, axis: Axis) -> AxisRoom
    ensures { result ≡ room_in room axis }
{
    axis.of(room.columns, room.rows)
}

// Both of an axis.
pub fn state_in(panel: Panel, axis: Axis) -> AxisState
    ensures { result ≡ state_in panel axis }
{
    let grid = grid_in(panel.grid, axis);
    let room = room_in(panel.room, axis);
    AxisState { grid, room }
}

// What reading needs of an axis.
pub fn reading_in(reading: Reading, axis: Axis) -> AxisReading
    ensures { axis_reading result ≡ reading_in (panel_reading reading) axis }
{
    axis.of(reading.columns, reading.rows)
}

// A panel with an axis anew.
pub fn with_state(panel: Panel, axis: Axis, state: AxisState) -> Panel
    ensures { result ≡ with_state panel axis state }
{
    let mut after = panel;
    match axis {
        Axis::Column => {
            after.grid.columns = state.grid;
            after.room.columns = state.room;
        }
        Axis::Row => {
            after.grid.rows = state.grid;
            after.room.rows = state.room;
        }
    }
    after
}

// What only reading needs, with that of an axis anew.
pub fn with_reading(reading: Reading, axis: Axis, own: AxisReading) -> Reading
    ensures { panel_reading result ≡ with_reading (panel_reading reading) axis (axis_reading own) }
{
    let mut after = reading;
    match axis {
        Axis::Column => after.columns = own,
        Axis::Row => after.rows = own,
    }
    after
}
