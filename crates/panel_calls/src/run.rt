// The records of an axis of a panel, written into a lent run.
ghost use Rattle.std.specs.Prelude.{◌≡◌, length};
ghost use Rattle.panel_tables.specs.Axes.{grid_in};
ghost use Rattle.panel_tables.specs.Regions.{axis_words_in};
ghost use Rattle.track_run.specs.Run.{answered_fill, fill_answer_of, run_after};
ghost use Rattle.panel_rules.specs.Calls.{axis_tracks, template_in, spares_in};

use crate::axis_track::{LentAxis, axis_tracks};
use coordinates::{Axis, Fault};
use panel_tables::Grid;
use panel_tables::region::PANEL_WORDS;
use track_rules::GridTrack;

// Writes the records of an axis into a lent run, 2N + 1 of them. Refuses fewer records, and fewer than N item bytes, by 10, and
// writes nothing then.
pub fn initialize_grid_tracks(
    grid: Grid,
    words: &[u64; PANEL_WORDS],
    axis: Axis,
    items: &[u8],
    records: &mut [GridTrack],
) -> Result<u32, Fault>
    ensures { (answered_fill result ≡ fill_answer_of (axis_tracks (grid_in grid axis)) (length records.old) (length items.now))
        × (records.new ≡ run_after (axis_tracks (grid_in grid axis)) (template_in (grid_in grid axis) (axis_words_in axis words.now)) (spares_in (grid_in grid axis) (axis_words_in axis words.now)) items.now records.old) }
{
    let lent = LentAxis::of_panel(grid, words, axis, items);
    track_run::initialize_grid_tracks(records, lent.tracks(), axis_tracks(lent.grid))
}
