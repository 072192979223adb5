// The placements of a panel that answer a question on the lines of an axis.
ghost use Rattle.std.specs.Prelude.{◌≡◌, ◌≤◌};
ghost use Rattle.panel_rules.specs.Calls.{shorter_store};
ghost use Rattle.panel_resolving.specs.Lent.{lent_names};
ghost use Rattle.placement_hits.specs.Steps.{Listed, listed_of};
ghost use Rattle.panel_hits.specs.Settled.{counts_in, lent_of, settled_hits};

use coordinates::Axis;
use coordinates::limit::PLACEMENT_RUN;
use panel_calls::axis_track::axis_tracks;
use panel_resolving::run::write_placements;
use panel_tables::axis::grid_in;
use panel_tables::{Grid, LentPanel};
use placement_hits::list::{MOST_HITS, write_hits};
use placement_hits::{Asked, Question};
use track_counts::TrackCounts;

// The tracks of an axis.
pub(crate) fn counts_in(grid: Grid, axis: Axis) -> TrackCounts
    ensures { result ≡ counts_in grid axis }
{
    axis_tracks(grid_in(grid, axis)).counts
}

// Writes the placements that answer a question, no halves of cells, from the first place on, all of them resolved in one run; how many there
// are. A panel with no placements has no run, and an empty list.
pub(crate) fn write_settled(
    grid: Grid,
    lent: LentPanel,
    axis: Axis,
    question: Question,
    hits: &mut [u32; MOST_HITS],
) -> u32
    requires { 32768 ≤ shorter_store (lent_names lent) }
    ensures { record { count = result; hits = hits.new } ≡ listed_of (settled_hits grid (lent_of lent.entry) axis question) hits.old }
{
    let mut numbers: [i32; PLACEMENT_RUN] = [0; PLACEMENT_RUN];
    let _written = write_placements(grid, lent, 0, &mut numbers);
    let asked = Asked::of_axis(axis, counts_in(grid, axis), question);
    write_hits(asked, &numbers, grid.placements, hits)
}
