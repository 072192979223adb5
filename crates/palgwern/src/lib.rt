// The calls on a panel for programs in C and Rust: numbers, lent arrays and slices of numbers, and structs of numbers by value.

#![tactic(auto)]

mod sheets;

ghost use Rattle.std.specs.Prelude.{◌≡◌, ◌≤◌, ◌<◌, MatchResult};
ghost use Rattle.coordinates.specs.Axes.{axis_of};
ghost use Rattle.coordinates.specs.declared.refusal.Fault.TheVariants.{Count};
ghost use Rattle.panel_tables.specs.Regions.{area_words_in, placement_words_in};
ghost use Rattle.panel_rules.specs.Calls.{name_tables_in, area_table_in, placement_table_in};
ghost use Rattle.panel_rules.specs.Placing.{resolve_placement};
ghost use Rattle.panel_names.specs.Lent.{lent_tables};
ghost use Rattle.library_numbers.specs.Answers.{answered_count_numbers, answered_name, PanelEntered, name_entered, size_of, line_count_of, record_count_of, placement_numbers};
ghost use Rattle.palgwern.specs.Names.{ShowsName};
ghost use Rattle.library_numbers.specs.Records.{WrittenRun, records_written};
ghost use Rattle.library_names.specs.Lists.{lists_written};
ghost use Rattle.panel_resolving.specs.Placements.{WrittenNumbers, placements_written};

pub mod areas;
mod cells;
mod cursor;
pub mod given;
mod history;
mod hits;
pub mod implicit;
pub mod layout;
pub mod lines;
pub mod resize;
pub mod resized;
pub mod sizes;
mod trial;

use coordinates::limit::PLACEMENT_RUN;
use coordinates::{Axis, Fault};
use library_names::{LINE_NAME_RUN, write_lists};
use library_numbers::axis::entry_in_no_axis;
use library_numbers::{CountAnswer, NameAnswer, PanelAnswer, PlacementNumbers, SizeAnswer, part};
use library_records::write_run;
use panel_calls::size::{explicit_size, line_count};
use panel_calls::track::record_count;
use panel_names::LentNames;
use panel_names::entering::enter_in_place;
use panel_names::naming::line_entry;
use panel_resolving::placing::resolve_placement;
use panel_resolving::run::write_placements;
use panel_tables::region::{PANEL_BYTES, PANEL_WORDS};
use panel_tables::{Grid, LentPanel, Panel};

// The number of the rows, the last of an axis.
const ROWS: u32 = 1;

// The axis of a number. 4: there is none.
pub(crate) fn axis_in(number: u32) -> Result<Axis, Fault>
    ensures { MatchResult result (λ axis. (number ≤ 1) × (axis ≡ axis_of number)) (λ fault. (1 < number) × (fault ≡ Count)) }
{
    if ROWS < number {
        return Err(Fault::Count);
    }
    Ok(Axis::from(number))
}

// A panel with one more line and name entered in an axis.
#[tactic(auto, unfolding(library_numbers::specs::Answers::name_entered))]
#[unsafe(no_mangle)]
pub extern "C" fn palgwern_enter_name(
    panel: Panel,
    words: &mut [u64; PANEL_WORDS],
    columnstore: &mut [u8],
    rowstore: &mut [u8],
    axis: u32,
    line: u32,
    name: &[u8],
) -> PanelAnswer
    ensures rowstore_after { record { answer = result; tables = name_tables_in words.new columnstore.new rowstore.new } ≡ name_entered panel (name_tables_in words.old columnstore.old rowstore.old) axis line name.now }
    ensures others { (area_words_in words.new ≡ area_words_in words.old) × (placement_words_in words.new ≡ placement_words_in words.old) }
{
    let mut after = panel;
    let entered = match axis_in(axis) {
        Ok(axis) => enter_in_place(&mut after, words, columnstore, rowstore, axis, line, name),
        Err(_) => Err(entry_in_no_axis(name)),
    };
    PanelAnswer {
        number: entered.err().map_or(0, u32::from),
        line: 0,
        panel: after,
    }
}

// The explicit size of an axis.
#[tactic(auto, unfolding(library_numbers::specs::Answers::size_of))]
#[unsafe(no_mangle)]
pub extern "C" fn palgwern_explicit_size(grid: Grid, axis: u32) -> SizeAnswer
    ensures { result ≡ size_of grid axis }
{
    SizeAnswer::from(axis_in(axis).map(|axis| explicit_size(grid, axis)))
}

// How many lists of line names an axis has.
#[tactic(auto, unfolding(library_numbers::specs::Answers::line_count_of))]
#[unsafe(no_mangle)]
pub extern "C" fn palgwern_line_count(grid: Grid, axis: u32) -> CountAnswer
    ensures { result ≡ line_count_of grid axis }
{
    CountAnswer::from(axis_in(axis).map(|axis| line_count(grid, axis)))
}

// How many records an axis has.
#[tactic(auto, unfolding(library_numbers::specs::Answers::record_count_of))]
#[unsafe(no_mangle)]
pub extern "C" fn palgwern_record_count(grid: Grid, axis: u32) -> CountAnswer
    ensures { result ≡ record_count_of grid axis }
{
    CountAnswer::from(axis_in(axis).map(|axis| u64::from(record_count(grid, axis))))
}

// Placement `index` with its names resolved.
#[unsafe(no_mangle)]
pub extern "C" fn palgwern_resolve_placement(
    grid: Grid,
    words: &[u64; PANEL_WORDS],
    bytes: &[u8; PANEL_BYTES],
    columnstore: &[u8],
    rowstore: &[u8],
    index: u32,
) -> PlacementNumbers
    ensures { result ≡ placement_numbers (resolve_placement grid (name_tables_in words.now columnstore.now rowstore.now) (area_table_in words.now bytes.now) (placement_table_in words.now bytes.now) index) }
{
    let lent = LentPanel {
        words,
        bytes,
        columnstore,
        rowstore,
    };
    PlacementNumbers::from(resolve_placement(grid, lent, index))
}

// Placements from `first` on with their names resolved, as many as there are and fit: eight numbers each, those of PlacementNumbers.
#[unsafe(no_mangle)]
pub extern "C" fn palgwern_resolve_placements(
    grid: Grid,
    words: &[u64; PANEL_WORDS],
    bytes: &[u8; PANEL_BYTES],
    columnstore: &[u8],
    rowstore: &[u8],
    first: u32,
    numbers: &mut [i32; PLACEMENT_RUN],
) -> CountAnswer
    ensures { record { answer = result; numbers = numbers.new } ≡ placements_written grid (name_tables_in words.now columnstore.now rowstore.now) (area_table_in words.now bytes.now) (placement_table_in words.now bytes.now) first numbers.old }
{
    let lent = LentPanel {
        words,
        bytes,
        columnstore,
        rowstore,
    };
    CountAnswer::from(write_placements(grid, lent, first, numbers))
}

// Where a name of a line of an axis lies, once the number of the axis and the stores are seen to be right.
fn place_name(
    grid: Grid,
    lent: LentNames,
    axis: u32,
    line: u32,
    place: u32,
) -> Result<NameAnswer, Fault>
    ensures { ShowsName grid (lent_tables lent.entry) axis line place (answered_name result) }
{
    let axis = axis_in(axis)?;
    lent.check_stores()?;
    let entry = line_entry(grid, lent, axis, line, place);
    Ok(part::name_part(lent.store(axis).len(), entry))
}

// Where a name of a line of an axis lies in the axis's store, by its place from 0.
#[unsafe(no_mangle)]
pub extern "C" fn palgwern_line_name(
    grid: Grid,
    words: &[u64; PANEL_WORDS],
    columnstore: &[u8],
    rowstore: &[u8],
    axis: u32,
    line: u32,
    place: u32,
) -> NameAnswer
    ensures { ShowsName grid (name_tables_in words.now columnstore.now rowstore.now) axis line place result }
{
    let lent = LentNames {
        words,
        columnstore,
        rowstore,
    };
    NameAnswer::from(place_name(grid, lent, axis, line, place))
}

// Writes all line names of an axis by its number.
#[tactic(auto, unfolding(library_names::specs::Lists::lists_written))]
fn write_names(
    grid: Grid,
    lent: LentNames,
    axis: u32,
    names: &mut [u64; LINE_NAME_RUN],
) -> Result<u64, Fault>
    ensures { record { answer = answered_count_numbers result; words = names.new } ≡ lists_written grid (lent_tables lent.entry) axis names.old }
{
    let axis = axis_in(axis)?;
    write_lists(grid, lent, axis, names)
}

// All line names of an axis, one list for each explicit line after the other: a word for each name, its line, its offset in the
// axis's store times 2^16 and its length times 2^32.
#[unsafe(no_mangle)]
pub extern "C" fn palgwern_line_names(
    grid: Grid,
    words: &[u64; PANEL_WORDS],
    columnstore: &[u8],
    rowstore: &[u8],
    axis: u32,
    names: &mut [u64; LINE_NAME_RUN],
) -> CountAnswer
    ensures { record { answer = result; words = names.new } ≡ lists_written grid (name_tables_in words.now columnstore.now rowstore.now) axis names.old }
{
    let lent = LentNames {
        words,
        columnstore,
        rowstore,
    };
    CountAnswer::from(write_names(grid, lent, axis, names))
}

// Writes records of an axis by its number.
#[tactic(auto, unfolding(library_numbers::specs::Records::records_written))]
fn write_records(
    grid: Grid,
    words: &[u64; PANEL_WORDS],
    axis: u32,
    items: &[u8],
    first: u32,
    records: &mut [u64],
) -> Result<u64, Fault>
    ensures { record { answer = answered_count_numbers result; words = records.new } ≡ records_written grid words.now axis items.now first records.old }
{
    let axis = axis_in(axis)?;
    write_run(grid, words, axis, items, first, records)
}

// Records of an axis from `first` on, as many as there are and fit: three words each, kind, minimum and maximum.
#[unsafe(no_mangle)]
pub extern "C" fn palgwern_records(
    grid: Grid,
    words: &[u64; PANEL_WORDS],
    axis: u32,
    items: &[u8],
    first: u32,
    records: &mut [u64],
) -> CountAnswer
    ensures { record { answer = result; words = records.new } ≡ records_written grid words.now axis items.now first records.old }
{
    CountAnswer::from(write_records(grid, words, axis, items, first, records))
}
