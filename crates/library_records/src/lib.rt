// A run of the records of an axis, written as numbers.

#![tactic(auto)]

ghost use Rattle.std.specs.Prelude.{◌≡◌, ◌+◌, ◌*◌, ◌-◌, ◌≤◌, ◌<◌, length};
ghost use Rattle.std.proofs.lemmas.List.Edits.{sets};
ghost use Rattle.track_rules.specs.Records.{tracks_in, records_in, item_at};
ghost use Rattle.track_rules.specs.Steps.{plan_of};
ghost use Rattle.panel_tables.specs.Axes.{grid_in};
ghost use Rattle.panel_tables.specs.Regions.{axis_words_in};
ghost use Rattle.coordinates.specs.Refusals.{refused_by};
ghost use Rattle.panel_rules.specs.Calls.{axis_tracks, template_in};
ghost use Rattle.library_numbers.specs.Answers.{answered_count_numbers};
ghost use Rattle.library_numbers.specs.Records.{run_words, run_refusal, run_count, WrittenRun, written_run};

use axis_tables::AxisGrid;
use coordinates::{Axis, Fault};
use panel_calls::axis_track::{LentAxis, axis_tracks, record_count};
use panel_tables::Grid;
use panel_tables::region::PANEL_WORDS;
use template_rules::SizeTables;
use track_record::Repeated;
use track_record::plan::track_count;
use track_rules::{Cursor, Plan, TrackSource};

mod axis;
mod edge;
mod implicit;
mod pair;
mod part;
mod size;
mod taken;
mod template;

use edge::write_axis;

// The words of a record.
const RECORD_WORDS: usize = 3;

// What all gutters share: the word of the gap, and one past the last open track.
#[derive(Clone, Copy, Debug, PartialEq, Eq)]
pub(crate) struct Gutters {
    pub gap: u64,
    pub opened: u64,
}

// What the tracks of a run are written from: the tables of their sizes, the item bytes, and what their gutters share.
#[derive(Clone, Copy)]
pub(crate) struct SizedTracks<'a> {
    pub sizes: SizeTables<'a>,
    pub items: &'a [u8],
    pub gutters: Gutters,
}

// An axis that is lent, with what is worked out once for all its records.
#[derive(Clone, Copy)]
pub(crate) struct PlannedAxis<'a> {
    pub lent: LentAxis<'a>,
    pub plan: Plan,
    ghost worked_out: { plan ≡ plan_of (axis_tracks lent.grid) (template_in lent.grid lent.tables.now) (item_at lent.items.now) },
}

// A stretch of tracks or records to write: the first, how many, and the place of their words.
#[derive(Clone, Copy, Debug, PartialEq, Eq)]
pub(crate) struct Stretch {
    pub first: usize,
    pub count: usize,
    pub place: usize,
    // Numbers of tracks and records have 32 bits.
    ghost numbered: { first + count < 4294967296 },
}

impl Stretch {
    // The first so many tracks of a stretch, and those after them.
    fn cut(self, count: usize) -> (Stretch, Stretch)
        requires count_bound { count ≤ self.count }
        requires place_bound { self.place + 6 * self.count < 18446744073709551616 }
        ensures early { (result.0.first ≡ self.first) × (result.0.count ≡ count) × (result.0.place ≡ self.place) }
        ensures late { (result.1.first ≡ self.first + count) × (result.1.count ≡ self.count - count) × (result.1.place ≡ self.place + 6 * count) }
    {
        let early = Stretch {
            first: self.first,
            count,
            place: self.place,
        };
        let late = Stretch {
            first: self.first + count,
            count: self.count - count,
            place: self.place + 6 * count,
        };
        (early, late)
    }
}

// A track to write: its number, the place of its size in the tables, where it comes from, and whether `fit` writes it.
#[derive(Clone, Copy, Debug, PartialEq, Eq)]
pub(crate) struct PlacedTrack {
    pub number: u64,
    pub size: u64,
    pub source: TrackSource,
    pub fit: bool,
}

// Tracks of the template to write next: those that repeat, how many of them, and where the template goes on.
#[derive(Clone, Copy, Debug, PartialEq, Eq)]
pub(crate) struct TemplatePart {
    pub repeated: Repeated,
    pub count: usize,
    pub after: Cursor,
}

// Writes so many records from one on.
fn write_records(lent: LentAxis, first: usize, count: usize, words: &mut [u64])
    requires count_bound { first + count ≤ records_in (axis_tracks lent.grid) }
    requires grid_in_bounds { tracks_in (axis_tracks lent.grid) ≤ length lent.items.now }
    requires count_in_bounds { 3 * count ≤ length words.old }
    ensures { words.new ≡ sets words.old 0 (run_words lent.entry.grid lent.entry.tables.now lent.entry.items.now first count) }
{
    write_axis(lent, first, count, words);
}

// Whether a run may be written.
#[tactic(auto, unfolding(library_numbers::specs::Records::run_refusal))]
fn check_run(grid: AxisGrid, items: usize, lent: usize, first: u32) -> Result<(), Fault>
    ensures { refused_by result ≡ run_refusal grid items lent first }
{
    if record_count(grid) <= first {
        return Err(Fault::Count);
    }
    if items < track_count(axis_tracks(grid)) as usize || lent < RECORD_WORDS {
        return Err(Fault::Short);
    }
    Ok(())
}

// How many records are written from one that there is.
#[tactic(auto, unfolding(library_numbers::specs::Records::run_count))]
fn run_count(grid: AxisGrid, lent: usize, first: u32) -> usize
    requires { first ≤ records_in (axis_tracks grid) }
    ensures { result ≡ run_count grid lent first }
{
    let left = record_count(grid) - first;
    (left as usize).min(lent / RECORD_WORDS)
}

// Writes the records of one axis from `first` on.
fn write_on(lent: LentAxis, first: u32, words: &mut [u64]) -> Result<u64, Fault>
    ensures { record { answer = answered_count_numbers result; words = words.new } ≡ written_run lent.entry.grid lent.entry.tables.now lent.entry.items.now first words.old }
{
    check_run(lent.grid, lent.items.len(), words.len(), first)?;
    let count = run_count(lent.grid, words.len(), first);
    write_records(lent, first as usize, count, words);
    Ok(count as u64)
}

// Writes the records of an axis of a panel from `first` on, as many as there are and as fit. Refuses a first record that there is not by 4,
// and then fewer than N item bytes, and words for no record, by 10.
pub fn write_run(
    grid: Grid,
    words: &[u64; PANEL_WORDS],
    axis: Axis,
    items: &[u8],
    first: u32,
    records: &mut [u64],
) -> Result<u64, Fault>
    ensures { record { answer = answered_count_numbers result; words = records.new } ≡ written_run (grid_in grid axis) (axis_words_in axis words.now) items.now first records.old }
{
    write_on(LentAxis::of_panel(grid, words, axis, items), first, records)
}
