// Layer 5, the lent run: the records of an axis, written by one loop.

#![tactic(auto)]

ghost use Rattle.std.specs.Prelude.{◌≡◌, ◌++◌, length};
ghost use Rattle.template_rules.specs.Template.{components_of};
ghost use Rattle.track_rules.specs.Written.{spare_sizes};
ghost use Rattle.track_run.specs.Run.{answered_fill, fill_answer_of, run_after};

pub mod lender;
pub mod state;

use coordinates::Fault;
use track_record::LentTracks;
use track_rules::{AxisTracks, GridTrack};

// Writes the records of an axis into a lent run, 2N + 1 of them. Refuses a gap out of range by 3, a count out of range by 4, fewer records and
// fewer than N item bytes by 10, and writes nothing then.
pub fn initialize_grid_tracks(
    records: &mut [GridTrack],
    lent: LentTracks,
    axis: AxisTracks,
) -> Result<u32, Fault>
    ensures { (answered_fill result ≡ fill_answer_of axis (length records.old) (length lent.entry.items.now))
        × (records.new ≡ run_after axis (components_of lent.entry.template) (spare_sizes lent.entry.spares) lent.entry.items.now records.old) }
{
    let count = state::check_fill(records.len(), lent.items.len(), axis)?;
    let mut at = lent.begin_at(axis, 0);
    for (index, record) in records[..count as usize].iter_mut().enumerate() {
        *record = lent.record_with(at, index as u64);
        at = state::advance(lent.template.components, at, index);
    }
    Ok(count)
}
