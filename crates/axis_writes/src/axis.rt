// What `axis`, `extra` and `item` do to an axis.
ghost use Rattle.std.specs.Prelude.{◌≡◌, Ok};
ghost use Rattle.axis_tables.specs.Readings.{axis_reading};
ghost use Rattle.axis_tables.specs.Store.{InMarks, answered_axis, put_item, put_extra, put_axis};

use axis_tables::layout::AXIS_MARKS;
use axis_tables::{AxisAfter, AxisSpace};
use coordinates::{Fault, set_at};

// An `axis` record. It is never refused.
pub fn put_axis(axis: AxisAfter, space: AxisSpace) -> AxisAfter
    ensures { answered_axis axis.state (axis_reading axis.reading) (Ok result) ≡ put_axis axis.state (axis_reading axis.reading) space.definite space.inner space.rule space.gap }
{
    let mut after = axis;
    after.state.grid.space = space;
    after.reading.seen = true;
    after
}

// Implicit counts: the last record holds. It is never refused.
pub fn put_extra(axis: AxisAfter, negative: u32, positive: u32) -> AxisAfter
    ensures { answered_axis axis.state (axis_reading axis.reading) (Ok result) ≡ put_extra axis.state (axis_reading axis.reading) negative positive }
{
    let mut after = axis;
    after.state.grid.implicit.negative = negative;
    after.state.grid.implicit.positive = positive;
    after
}

// An item's mark at a track index. 4: an index above 29,999.
#[tactic(auto, unfolding(axis_tables::specs::Store::put_item))]
pub fn put_item(axis: AxisAfter, marks: &mut [u8], index: u32) -> Result<AxisAfter, Fault>
    ensures { record { answer = answered_axis axis.state (axis_reading axis.reading) result; marks = marks.new } ≡ put_item axis.state (axis_reading axis.reading) marks.old index }
{
    if AXIS_MARKS <= index as usize {
        return Err(Fault::Count);
    }
    set_at(marks, index as usize, 1);
    Ok(axis)
}
