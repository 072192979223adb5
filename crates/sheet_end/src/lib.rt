// After the last line of a sheet: the explicit size of an axis and its name entries, written out.

#![tactic(auto)]

ghost use Rattle.std.specs.Prelude.{◌≡◌, Ok};
ghost use Rattle.template_rules.specs.Explicit.{answered_size};
ghost use Rattle.axis_tables.specs.Readings.{axis_reading};
ghost use Rattle.sheet_end.specs.End.{sized_by, answered_end, end_in};

pub mod size;
mod written;

use crate::size::size_in;
use crate::written::put_entries;
use axis_tables::{AxisAfter, AxisState, TemplateCounts};
use coordinates::Fault;
use template_rules::ExplicitSize;

// An axis at the end of its sheet, with the entries and the explicit size. The counts of its template are those written; where it counts
// as none they are 0, so that no later call sees a component or a track. Its `name` records and their bytes stay.
fn with_size(state: AxisState, entries: u32, size: ExplicitSize) -> AxisState
    ensures { result ≡ sized_by state entries (answered_size (Ok size)) }
{
    let mut after = state;
    after.grid.entries = entries;
    after.grid.size.repetitions = size.repetitions;
    after.grid.size.explicit = size.explicit;
    after.grid.template = match size.template {
        0 => TemplateCounts::default(),
        _ => state.room.template,
    };
    after
}

// The line after the last, for one axis: its size is put into its state and its entries into their region of the words.
// 1: a repeat is open; 4: an explicit count above 10,000; 8: more than 4,096 entries. On a refusal the words stay as they came.
pub fn end_axis(axis: AxisAfter, words: &mut [u64]) -> Result<AxisState, Fault>
    ensures { record { answer = answered_end axis.state result; words = words.new } ≡ end_in axis.state (axis_reading axis.reading) words.old }
{
    if let Some(_) = axis.reading.unended {
        return Err(Fault::Unread);
    }
    let size = size_in(axis.state, words)?;
    let entries = put_entries(axis.state, size, words)?;
    Ok(with_size(axis.state, entries, size))
}
