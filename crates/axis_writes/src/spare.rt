// What `spare` does to an axis.
ghost use Rattle.std.specs.Prelude.{◌≡◌};
ghost use Rattle.axis_tables.specs.Readings.{axis_reading};
ghost use Rattle.axis_tables.specs.Store.{InWords, answered_axis, put_spare};

use axis_tables::AxisAfter;
use axis_tables::layout::{MOST_SPARES, SPARE_MAXIMUMS, SPARE_MINIMUMS};
use coordinates::{Fault, set_at};
use sheet_forms::TrackSizes;

// Spare sizes. 8: a 65th.
#[tactic(auto, unfolding(axis_tables::specs::Store::put_spare))]
pub fn put_spare(axis: AxisAfter, words: &mut [u64], sizes: TrackSizes) -> Result<AxisAfter, Fault>
    ensures { record { answer = answered_axis axis.state (axis_reading axis.reading) result; words = words.new } ≡ put_spare axis.state (axis_reading axis.reading) words.old sizes.min sizes.max }
{
    let spares = axis.state.grid.implicit.spares;
    if MOST_SPARES as u32 <= spares {
        return Err(Fault::Crowded);
    }
    set_at(words, SPARE_MINIMUMS + spares as usize, sizes.min);
    set_at(words, SPARE_MAXIMUMS + spares as usize, sizes.max);
    let mut after = axis;
    after.state.grid.implicit.spares = spares + 1;
    Ok(after)
}
