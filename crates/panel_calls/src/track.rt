// The track records of an axis of a panel, one at a time.
ghost use Rattle.std.specs.Prelude.{◌≡◌};
ghost use Rattle.track_rules.specs.Tracks.{answered_record};
ghost use Rattle.track_rules.specs.Records.{records_in};
ghost use Rattle.panel_tables.specs.Axes.{grid_in};
ghost use Rattle.panel_tables.specs.Regions.{axis_words_in};
ghost use Rattle.panel_rules.specs.Calls.{axis_tracks, track_record};

use crate::axis_track;
use crate::axis_track::LentAxis;
use coordinates::{Axis, Fault};
use panel_tables::Grid;
use panel_tables::axis::grid_in;
use panel_tables::region::PANEL_WORDS;
use track_rules::GridTrack;

// How many records an axis has: 2N + 1.
pub fn record_count(grid: Grid, axis: Axis) -> u32
    ensures { result ≡ records_in (axis_tracks (grid_in grid axis)) }
{
    axis_track::record_count(grid_in(grid, axis))
}

// Record `index` of an axis. Refuses an index of 2N + 1 or more by 4, and fewer than N item bytes by 10.
pub fn track_record(
    grid: Grid,
    words: &[u64; PANEL_WORDS],
    axis: Axis,
    items: &[u8],
    index: u32,
) -> Result<GridTrack, Fault>
    ensures { answered_record result ≡ track_record (grid_in grid axis) (axis_words_in axis words.now) items.now index }
{
    LentAxis::of_panel(grid, words, axis, items).record(index)
}
