// For programs: a run that is owned, filled and handed over, so that other callers need no reference to records.
ghost use Rattle.std.specs.Prelude.{◌≡◌};
ghost use Rattle.template_rules.specs.Template.{components_of};
ghost use Rattle.track_rules.specs.Written.{spare_sizes};
ghost use Rattle.track_run.specs.Run.{run_after, zero_records};

use track_record::LentTracks;
use track_rules::{AxisTracks, GridTrack, MOST_RECORDS};

// The run after the call, of as many records as the largest panel has; zero records past 2N + 1, and all zero where the call refuses.
pub fn axis_records(lent: LentTracks, axis: AxisTracks) -> [GridTrack; MOST_RECORDS]
    ensures { result ≡ run_after axis (components_of lent.entry.template) (spare_sizes lent.entry.spares) lent.entry.items.now (zero_records 60001) }
{
    let mut records = [track_rules::grid_track::zero(); MOST_RECORDS];
    let _ = crate::initialize_grid_tracks(&mut records, lent, axis);
    records
}
