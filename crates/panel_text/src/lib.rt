// The lines that the panel program prints, each written at the start of lent bytes.

#![tactic(auto)]

ghost use Rattle.panel_text.specs.Lines.{size_line, record_line, place_line, cell_line, refused_line};
ghost use Rattle.panel_text.specs.Written.{WritesLine};

mod fields;
mod line;
mod numerals;

use coordinates::Axis;
use free_cells::Rectangle;
use line::PrintedLine;
use name_resolver::ResolvedLine;
use text::{LINE_FEED, TAB};
use track_rules::GridTrack;

// The most bytes of a line.
pub const LINE_BYTES: usize = 128;

// The line of an axis: its repetitions and its explicit count.
pub fn size_line(out: &mut [u8], axis: Axis, repetitions: u32, count: u32) -> usize
    ensures { WritesLine out.old (size_line axis repetitions count) out.new result }
{
    let mut text = PrintedLine::new();
    text.field(b"size", TAB);
    text.axis(axis);
    text.count(repetitions, TAB);
    text.count(count, LINE_FEED);
    text.put(out)
}

// The line of a track record.
pub fn record_line(out: &mut [u8], index: u32, track: GridTrack) -> usize
    ensures { WritesLine out.old (record_line index track) out.new result }
{
    let mut text = PrintedLine::new();
    text.count(index, TAB);
    text.track(track.kind);
    text.collapsed(track.collapsed);
    text.size(track.size.min);
    text.size(track.size.max);
    text.source(track.source, LINE_FEED);
    text.put(out)
}

// The line of a placement with its names resolved.
pub fn place_line(out: &mut [u8], axis: Axis, line: ResolvedLine) -> usize
    ensures { WritesLine out.old (place_line axis line) out.new result }
{
    let mut text = PrintedLine::new();
    text.field(b"place", TAB);
    text.axis(axis);
    text.end_kind(line.start);
    text.end_number(line.start, TAB);
    text.end_kind(line.end);
    text.end_number(line.end, LINE_FEED);
    text.put(out)
}

// The line of a cell, by where it lands.
pub fn cell_line(out: &mut [u8], land: Rectangle) -> usize
    ensures { WritesLine out.old (cell_line land) out.new result }
{
    let mut text = PrintedLine::new();
    text.field(b"cell", TAB);
    text.count(land.columns.start, TAB);
    text.count(land.columns.end, TAB);
    text.count(land.rows.start, TAB);
    text.count(land.rows.end, LINE_FEED);
    text.put(out)
}

// The line of a refused sheet.
pub fn refused_line(out: &mut [u8], number: u32, line: u32) -> usize
    ensures { WritesLine out.old (refused_line (record { number = number; line = line })) out.new result }
{
    let mut text = PrintedLine::new();
    text.field(b"refused", TAB);
    text.count(number, TAB);
    text.count(line, LINE_FEED);
    text.put(out)
}
