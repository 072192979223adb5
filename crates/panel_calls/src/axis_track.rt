// An axis that is lent to be read, and its track records.
ghost use Rattle.std.specs.Prelude.{◌≡◌, min};
ghost use Rattle.template_rules.specs.Template.{components_of};
ghost use Rattle.track_rules.specs.Tracks.{answered_record};
ghost use Rattle.track_rules.specs.Written.{spare_sizes};
ghost use Rattle.track_rules.specs.Records.{item_at, records_in};
ghost use Rattle.track_rules.specs.Steps.{plan_of};
ghost use Rattle.axis_tables.specs.Runs.{part_of};
ghost use Rattle.panel_tables.specs.Axes.{grid_in};
ghost use Rattle.panel_tables.specs.Regions.{axis_words_in};
ghost use Rattle.panel_rules.specs.Calls.{axis_tracks, template_in, spares_in, track_record};
ghost use Rattle.panel_calls.specs.Carried.{carried_to, carried_record, carried_on};

use crate::part::{spares_on, template_on};
use axis_tables::AxisGrid;
use coordinates::line::MOST_TRACKS;
use coordinates::{Axis, Fault};
use panel_tables::Grid;
use panel_tables::axis::grid_in;
use panel_tables::region::{PANEL_WORDS, axis_words};
use template_rules::Template;
use track_counts::TrackCounts;
use track_record::LentTracks;
use track_rules::{AxisTracks, GridTrack, Plan, TrackWalk};

// An axis to be read: what is kept of it, and its words and item bytes, which are lent.
#[derive(Clone, Copy)]
pub struct LentAxis<'a> {
    pub grid: AxisGrid,
    pub tables: &'a [u64],
    pub items: &'a [u8],
}

// A count of tracks, at most 10,000.
fn held_count(count: u32) -> u16
    ensures { result ≡ min count 10000 }
{
    count.min(u32::from(MOST_TRACKS)) as u16
}

// What the records of an axis ask of its state.
pub fn axis_tracks(grid: AxisGrid) -> AxisTracks
    ensures { result ≡ axis_tracks grid }
{
    let counts = TrackCounts {
        negative_implicit: held_count(grid.implicit.negative),
        explicit: held_count(grid.size.explicit),
        positive_implicit: held_count(grid.implicit.positive),
    };
    AxisTracks {
        counts,
        repetitions: grid.size.repetitions,
        gap: sizing::Sizing::from(grid.space.gap),
    }
}

// How many records an axis has: 2N + 1.
pub fn record_count(grid: AxisGrid) -> u32
    ensures { result ≡ records_in (axis_tracks grid) }
{
    track_record::plan::record_count(axis_tracks(grid))
}

impl<'a> LentAxis<'a> {
    // An axis of a panel.
    pub fn of_panel(
        grid: Grid,
        words: &'a [u64; PANEL_WORDS],
        axis: Axis,
        items: &'a [u8],
    ) -> LentAxis<'a>
        ensures grid { result.grid ≡ grid_in grid axis }
        ensures tables { result.tables.now ≡ axis_words_in axis words.now }
        ensures items { result.items.now ≡ items.now }
    {
        LentAxis {
            grid: grid_in(grid, axis),
            tables: axis_words(words, axis),
            items,
        }
    }

    // Its template.
    pub fn template(self) -> Template<'a>
        ensures template { components_of result ≡ template_in self.entry.grid self.entry.tables.now }
        ensures components { result.components.now ≡ part_of self.entry.tables.now 0 self.entry.grid.template.components }
        ensures minimums { result.sizes.minimums.now ≡ part_of self.entry.tables.now 64 self.entry.grid.template.tracks }
        ensures maximums { result.sizes.maximums.now ≡ part_of self.entry.tables.now 2112 self.entry.grid.template.tracks }
    {
        template_on(self.grid, self.tables)
    }

    // The tables of its tracks.
    pub(crate) fn tracks(self) -> LentTracks<'a>
        ensures template { components_of result.template ≡ template_in self.entry.grid self.entry.tables.now }
        ensures spares { spare_sizes result.spares ≡ spares_in self.entry.grid self.entry.tables.now }
        ensures items { result.items.now ≡ self.entry.items.now }
    {
        LentTracks {
            template: self.template(),
            spares: spares_on(self.grid, self.tables),
            items: self.items,
        }
    }

    // Record `index`.
    #[tactic(auto, unfolding(panel_rules::specs::Calls::track_record))]
    pub fn record(self, index: u32) -> Result<GridTrack, Fault>
        ensures { answered_record result ≡ track_record self.entry.grid self.entry.tables.now self.entry.items.now index }
    {
        self.tracks().track_record(axis_tracks(self.grid), index)
    }

    // What is worked out once for all records.
    pub fn plan(self) -> Plan
        ensures { result ≡ plan_of (axis_tracks self.entry.grid) (template_in self.entry.grid self.entry.tables.now) (item_at self.entry.items.now) }
    {
        self.tracks().make_plan(axis_tracks(self.grid))
    }

    // What is carried to record `index`.
    pub fn begin(self, index: usize) -> TrackWalk
        ensures { result ≡ carried_to self.entry.grid self.entry.tables.now self.entry.items.now index }
    {
        self.tracks().begin_at(axis_tracks(self.grid), index)
    }

    // What is carried to record 0.
    pub fn first(self) -> TrackWalk
        ensures { result ≡ carried_to self.entry.grid self.entry.tables.now self.entry.items.now 0 }
    {
        self.begin(0)
    }

    // Record `index`, by what is carried to it. In a walk it is one with the loop, which hands on neither the axis nor what is carried.
    #[inline(always)]
    #[tactic(auto, unfolding(track_run::specs::Steps::state_record))]
    pub fn carried(self, at: TrackWalk, index: usize) -> GridTrack
        ensures { result ≡ carried_record self.entry.grid self.entry.tables.now self.entry.items.now at index }
    {
        self.tracks().record_with(at, index as u64)
    }

    // What is carried on from record `index`.
    pub fn next(self, at: TrackWalk, index: usize) -> TrackWalk
        ensures { result ≡ carried_on self.entry.grid self.entry.tables.now at index }
    {
        track_run::state::advance(self.template().components, at, index)
    }
}
