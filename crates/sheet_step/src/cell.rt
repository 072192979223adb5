// What a `cell` record does to the panel: it is written into the placements' parts of the words and of the bytes.
ghost use Rattle.std.specs.Prelude.{◌≡◌, length};
ghost use Rattle.coordinates.specs.Refusals.{refused_by};
ghost use Rattle.sheet_forms.specs.Answers.{place_end};
ghost use Rattle.panel_tables.specs.View.{next_line};
ghost use Rattle.panel_tables.specs.Areas.{answered_panel};
ghost use Rattle.panel_tables.specs.Placements.{end_named};
ghost use Rattle.sheet_rules.specs.Lines.{placed_end};
ghost use Rattle.sheet_step.specs.Drafts.{held_of, names_at, held_cell};
ghost use Rattle.sheet_step.specs.Regions.{on_halves};

use crate::Draft;
use crate::panel::named_end;
use coordinates::{Fault, Line};
use panel_tables::Panel;
use panel_tables::placement::{PLACEMENT_BYTES, PLACEMENT_WORDS};
use panel_tables::region::{PANEL_BYTES, PANEL_WORDS, PLACEMENT_NAMES_START, PLACEMENTS};
use panel_writes::place_record::{NamedEnds, put_cell};
use sheet_forms::{CellRecord, PlaceEnd};
use sheet_lines::LineRecord;
use sheet_rules::SHEET_BYTES;
use text::part_at;

// The line after so many that were accepted; a sheet has no further one than it may have bytes.
pub(crate) fn next_line(lines: u32) -> u32
    ensures { result ≡ next_line lines }
{
    lines.saturating_add(1).min(SHEET_BYTES as u32)
}

// The ends of a cell's half as a placement has them, with the names that they use.
fn named_ends<'a>(ends: Line<PlaceEnd>, start: &'a [u8], end: &'a [u8]) -> NamedEnds<'a>
    ensures start { end_named result.start.end result.start.name.now ≡ placed_end start.now (place_end ends.start) }
    ensures end { end_named result.end.end result.end.name.now ≡ placed_end end.now (place_end ends.end) }
{
    NamedEnds {
        start: named_end(ends.start, start),
        end: named_end(ends.end, end),
    }
}

// A cell, written into the placements' parts of the words and of the bytes.
fn on_cell(
    panel: Panel,
    words: &mut [u64; PANEL_WORDS],
    bytes: &mut [u8; PANEL_BYTES],
    columns: NamedEnds<'_>,
    rows: NamedEnds<'_>,
    line: u32,
) -> Result<Panel, Fault>
    ensures written { record { answer = answered_panel panel result; words = words.new; bytes = bytes.new } ≡ on_halves panel words.old bytes.old line (end_named columns.entry.start.end columns.entry.start.name.now) (end_named columns.entry.end.end columns.entry.end.name.now) (end_named rows.entry.start.end rows.entry.start.name.now) (end_named rows.entry.end.end rows.entry.end.name.now) }
    ensures lengths { (length words.new ≡ 26368) × (length bytes.new ≡ 94816) }
{
    let words = &mut words[PLACEMENTS..PLACEMENTS + PLACEMENT_WORDS];
    let bytes = &mut bytes[PLACEMENT_NAMES_START..PLACEMENT_NAMES_START + PLACEMENT_BYTES];
    put_cell(panel, words, bytes, columns, rows, line)
}

impl Draft {
    // A cell of a line, with its names and the number that the line has in the sheet.
    pub(crate) fn write_cell(
        &mut self,
        line: &[u8],
        there: LineRecord,
        cell: CellRecord,
    ) -> Result<(), Fault>
        ensures { record { fault = refused_by result; held = held_of self.new } ≡ held_cell (held_of self.old) cell (names_at line.now there) }
    {
        let first = part_at(line, there.first);
        let second = part_at(line, there.second);
        let columns = named_ends(cell.columns, first, second);
        let third = part_at(line, there.third);
        let fourth = part_at(line, there.fourth);
        let rows = named_ends(cell.rows, third, fourth);
        let number = next_line(self.reading.lines);
        let (words, bytes) = (&mut self.words, &mut self.bytes);
        self.panel = on_cell(self.panel, words, bytes, columns, rows, number)?;
        Ok(())
    }
}
