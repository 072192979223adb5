// A run of the tracks of an axis: those before the grid, those of the template, and the rest.
ghost use Rattle.std.specs.Prelude.{◌≡◌, ◌+◌, ◌*◌, ◌≤◌, ◌<◌, length};
ghost use Rattle.std.proofs.lemmas.List.Edits.{sets};
ghost use Rattle.panel_rules.specs.Calls.{axis_tracks, template_in, spares_in};
ghost use Rattle.library_records.specs.Pairs.{joined, gutters_of, axis_pair};

use crate::template::write_template;
use crate::{Gutters, PlannedAxis, SizedTracks, Stretch};
use axis_tables::AxisGrid;
use panel_calls::axis_track::axis_tracks;
use panel_calls::part::spares_on;
use sizing::Sizing;
use track_record::count::before_end;
use track_rules::Plan;

// What the gutters of an axis share.
fn gutters_of(grid: AxisGrid, plan: Plan) -> Gutters
    ensures { result ≡ gutters_of (axis_tracks grid) plan }
{
    Gutters {
        gap: u64::from(Sizing::from(grid.space.gap)),
        opened: plan.opened,
    }
}

// Writes a stretch of the tracks of an axis, with the gutters after them.
pub(crate) fn write_pairs(planned: PlannedAxis, tracks: Stretch, words: &mut [u64])
    requires count_in_bounds { tracks.place + 6 * tracks.count ≤ length words.old }
    ensures { words.new ≡ sets words.old tracks.place (joined (axis_pair (axis_tracks planned.entry.lent.grid) planned.entry.plan (template_in planned.entry.lent.grid planned.entry.lent.tables.now) (spares_in planned.entry.lent.grid planned.entry.lent.tables.now) planned.entry.lent.items.now) tracks.first tracks.count) }
{
    let lent = planned.lent;
    let grid = lent.grid;
    let counts = axis_tracks(grid).counts;
    let negative = counts.negative_implicit as u64;
    let end = negative + planned.plan.written as u64;
    let gutters = gutters_of(grid, planned.plan);
    let sized = SizedTracks {
        sizes: spares_on(grid, lent.tables),
        items: lent.items,
        gutters,
    };
    let before = before_end(negative, tracks.first as u64, tracks.count);
    let (early, rest) = tracks.cut(before);
    sized.write_negative(negative, early, words);
    let written = before_end(end, rest.first as u64, rest.count);
    let (middle, late) = rest.cut(written);
    let offset = (middle.first as u64).saturating_sub(negative);
    write_template(lent, offset, gutters, middle, words);
    let passed = (late.first as u64).saturating_sub(end);
    let explicit = negative + counts.explicit as u64;
    sized.write_positive(explicit, passed, late, words);
}
