// What a `place` or a `cell` record writes: a word for each end, their names, and the line of a cell.
ghost use Rattle.std.specs.Prelude.{◌≡◌, ◌+◌, ◌≤◌, ◌<◌, length};
ghost use Rattle.coordinates.specs.Refusals.{refused_by};
ghost use Rattle.panel_tables.specs.View.{end_outside, end_fault, lower, ends_fault};
ghost use Rattle.panel_tables.specs.Areas.{InAreas, put, answered_panel};
ghost use Rattle.panel_tables.specs.Placements.{axis_mark, end_named, end_word, no_item, item_fault, names_length, write_half, put_placement, put_cell};

use axis_tables::name::{named_fault, put_bytes};
use coordinates::limit::LONGEST_NAME;
use coordinates::{Axis, Fault, set_at};
use panel_tables::number::number_outside;
use panel_tables::placement::{
    CELL_LINES, MARK_PART, MOST_ITEMS, PLACEMENT_BYTES, start_with_mark,
};
use panel_tables::{EndPlace, Panel, PlacementEnd};

// The most bytes that the names of a placement take, and of a cell.
const PLACEMENT_NAMES: u32 = 2 * LONGEST_NAME as u32;

const CELL_NAMES: u32 = 2 * PLACEMENT_NAMES;

// An end of a placement with its name, empty where it has none.
#[derive(Clone, Copy)]
pub struct NamedEnd<'a> {
    pub end: PlacementEnd,
    pub name: &'a [u8],
}

// Both ends of a placement, or of a cell's half.
#[derive(Clone, Copy)]
pub struct NamedEnds<'a> {
    pub start: NamedEnd<'a>,
    pub end: NamedEnd<'a>,
}

// Whether an end has no kind, or a number outside its range.
fn end_outside(end: PlacementEnd) -> bool
    ensures { result ≡ end_outside end }
{
    4 < end.kind || number_outside(end.number)
}

// The word of an end: its kind and number, where its name lies, and an axis. Of the axis and the length of the name the lowest byte counts.
#[tactic(auto, unfolding(panel_tables::specs::Placements::end_word))]
pub fn end_word(axis: u64, end: PlacementEnd, offset: u32, length: u64) -> u64
    ensures { result ≡ end_word axis end offset length }
{
    let place = EndPlace {
        end,
        offset,
        length: (length % 0x100) as u32,
    };
    u64::from(place) + axis % 0x100 * MARK_PART
}

// Whether an end is refused. 2: a name of more than 32 bytes; 4: a kind or a number outside its range.
#[tactic(auto, unfolding(panel_tables::specs::View::end_fault))]
fn check_end(end: NamedEnd<'_>) -> Result<(), Fault>
    ensures { refused_by result ≡ end_fault end.entry.end (length end.entry.name.now) }
{
    let length = end.name.len();
    if end_outside(end.end) {
        return Err(named_fault(length, Fault::Count));
    }
    if LONGEST_NAME < length {
        return Err(Fault::Name);
    }
    Ok(())
}

// Of two refusals the one with the lower number.
#[tactic(auto, unfolding(panel_tables::specs::View::lower))]
fn lower(first: Result<(), Fault>, second: Result<(), Fault>) -> Result<(), Fault>
    ensures { refused_by result ≡ lower (refused_by first) (refused_by second) }
{
    match (first, second) {
        (Ok(()), second) => second,
        (first, Ok(())) => first,
        (Err(one), Err(other)) => Err(if u32::from(one) < u32::from(other) {
            one
        } else {
            other
        }),
    }
}

// Whether one of two ends is refused.
fn check_ends(ends: NamedEnds<'_>) -> Result<(), Fault>
    ensures { refused_by result ≡ ends_fault (end_named ends.entry.start.end ends.entry.start.name.now) (end_named ends.entry.end.end ends.entry.end.name.now) }
{
    lower(check_end(ends.start), check_end(ends.end))
}

// Whether there is no place for one `place` or `cell` more, with names of so many bytes.
#[tactic(auto, unfolding(panel_tables::specs::Placements::no_item))]
fn no_item(panel: Panel, bytes: u32) -> bool
    ensures { result ≡ no_item panel bytes }
{
    let cells = panel.grid.cells;
    let used = panel.room.placementbytes as usize;
    MOST_ITEMS <= panel.grid.placements.saturating_sub(cells)
        || MOST_ITEMS <= cells
        || PLACEMENT_BYTES < used + bytes as usize
}

// Whether one more is refused whose ends are checked, with names of at most so many bytes. 8: a 257th, or no room for its names.
#[tactic(auto, unfolding(panel_tables::specs::Placements::item_fault))]
fn check_item(panel: Panel, ends: Result<(), Fault>, bytes: u32) -> Result<(), Fault>
    ensures { refused_by result ≡ item_fault panel (refused_by ends) bytes }
{
    ends?;
    if no_item(panel, bytes) {
        return Err(Fault::Crowded);
    }
    Ok(())
}

// One placement more in the tables, which is a cell's half where `cell` holds, and the panel after it.
fn write_half(
    panel: Panel,
    words: &mut [u64],
    bytes: &mut [u8],
    axis: Axis,
    cell: bool,
    ends: NamedEnds<'_>,
) -> Panel
    requires { (panel.grid.placements < 512) × (panel.room.placementbytes + (length ends.start.name.now + length ends.end.name.now) ≤ 32768) }
    ensures { record { answer = put 0 result; words = words.new; bytes = bytes.new } ≡ write_half (axis_mark axis cell) panel words.old bytes.old (end_named ends.entry.start.end ends.entry.start.name.now) (end_named ends.entry.end.end ends.entry.end.name.now) }
{
    let at = panel.grid.placements as usize;
    let used = panel.room.placementbytes;
    let NamedEnds { start, end } = ends;
    let then = used + start.name.len() as u32;
    let start_place = EndPlace {
        end: start.end,
        offset: used,
        length: start.name.len() as u32,
    };
    let end_place = EndPlace {
        end: end.end,
        offset: then,
        length: end.name.len() as u32,
    };
    set_at(words, at + at, start_with_mark(axis, cell, start_place));
    set_at(words, at + at + 1, u64::from(end_place));
    put_bytes(bytes, used as usize, start.name);
    put_bytes(bytes, then as usize, end.name);
    let mut after = panel;
    after.grid.placements = panel.grid.placements + 1;
    after.room.placementbytes = then + end.name.len() as u32;
    after
}

// A placement. 2: a name of more than 32 bytes; 4: a kind or a number outside its range; 8: a 257th `place` or `cell`, or no room for its
// names.
#[tactic(auto, unfolding(panel_tables::specs::Placements::put_placement))]
pub fn put_placement(
    panel: Panel,
    words: &mut [u64],
    bytes: &mut [u8],
    axis: Axis,
    start: NamedEnd<'_>,
    end: NamedEnd<'_>,
) -> Result<Panel, Fault>
    ensures { record { answer = answered_panel panel result; words = words.new; bytes = bytes.new } ≡ put_placement panel words.old bytes.old axis (end_named start.entry.end start.entry.name.now) (end_named end.entry.end end.entry.name.now) }
{
    let ends = NamedEnds { start, end };
    check_item(panel, check_ends(ends), PLACEMENT_NAMES)?;
    Ok(write_half(panel, words, bytes, axis, false, ends))
}

// A cell, whose line has that number in the sheet: its columns, its rows, and the number. Refusals as of a placement.
#[tactic(auto, unfolding(panel_tables::specs::Placements::put_cell))]
pub fn put_cell(
    panel: Panel,
    words: &mut [u64],
    bytes: &mut [u8],
    columns: NamedEnds<'_>,
    rows: NamedEnds<'_>,
    line: u32,
) -> Result<Panel, Fault>
    ensures { record { answer = answered_panel panel result; words = words.new; bytes = bytes.new } ≡ put_cell panel words.old bytes.old line (end_named columns.entry.start.end columns.entry.start.name.now) (end_named columns.entry.end.end columns.entry.end.name.now) (end_named rows.entry.start.end rows.entry.start.name.now) (end_named rows.entry.end.end rows.entry.end.name.now) }
{
    let ends = lower(check_ends(columns), check_ends(rows));
    check_item(panel, ends, CELL_NAMES)?;
    let halfway = write_half(panel, words, bytes, Axis::Column, true, columns);
    let mut after = write_half(halfway, words, bytes, Axis::Row, true, rows);
    let cells = after.grid.cells;
    set_at(words, CELL_LINES + cells as usize, u64::from(line));
    after.grid.cells = cells + 1;
    Ok(after)
}
