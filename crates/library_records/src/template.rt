// A run of tracks that the template writes, component by component.
ghost use Rattle.std.specs.Prelude.{◌≡◌, ◌+◌, ◌*◌, ◌≤◌, ◌<◌, length};
ghost use Rattle.std.proofs.lemmas.List.Edits.{sets};
ghost use Rattle.track_rules.specs.Steps.{word_totals, sum_of};
ghost use Rattle.axis_tables.specs.Runs.{part_of};
ghost use Rattle.panel_rules.specs.Calls.{template_in};
ghost use Rattle.library_records.specs.Pairs.{joined, template_pair};

use crate::taken::part_at;
use crate::{Gutters, SizedTracks, Stretch};
use panel_calls::axis_track::LentAxis;
use track_rules::Cursor;

// Writes a stretch of tracks with the gutters after them: those of the template from its track `offset` on.
pub(crate) fn write_template(
    lent: LentAxis,
    offset: u64,
    gutters: Gutters,
    tracks: Stretch,
    words: &mut [u64],
)
    requires count_bound { 0 < tracks.count → offset + tracks.count ≤ sum_of (word_totals lent.grid.size.repetitions (part_of lent.tables.now 0 lent.grid.template.components)) }
    requires count_in_bounds { tracks.place + 6 * tracks.count ≤ length words.old }
    ensures { words.new ≡ sets words.old tracks.place (joined (template_pair (word_totals lent.entry.grid.size.repetitions (part_of lent.entry.tables.now 0 lent.entry.grid.template.components)) (template_in lent.entry.grid lent.entry.tables.now) lent.entry.items.now offset tracks.first gutters) tracks.first tracks.count) }
{
    let template = lent.template();
    let sized = SizedTracks {
        sizes: template.sizes,
        items: lent.items,
        gutters,
    };
    let mut at = Cursor {
        component: 0,
        offset,
    };
    let mut done: usize = 0;
    while done < tracks.count {
        let left = (tracks.count - done) as u32;
        let part = part_at(template.components, lent.grid.size.repetitions, at, left);
        let stretch = Stretch {
            first: tracks.first + done,
            count: part.count,
            place: tracks.place + 6 * done,
        };
        sized.write_part(part.repeated, at.offset, stretch, words);
        at = part.after;
        done += part.count;
    }
}
