// The lines of a sheet, one after the other.
ghost use Rattle.std.specs.Prelude.{◌≡◌, ◌<◌, ◌≤◌, length, Err};
ghost use Rattle.text.specs.Split.{split};
ghost use Rattle.sheet_rules.specs.Contents.{lines_from};
ghost use Rattle.sheet_rules.specs.Answers.{noted, NumberedPair};
ghost use Rattle.panel_cells.specs.Steps.{area_number_of};
ghost use Rattle.sheet_step.specs.Drafts.{held_of};
ghost use Rattle.sheet.specs.Runs.{held_run, noted_at, held_overlap, broken_note, or_line, held_broken};
ghost use Rattle.sheet.specs.Steps.{fault_in, stop_in, line_or_none, IsLine};

use crate::LinesRead;
use coordinates::Fault;
use panel_tables::area::MOST_AREAS;
use picture_end::last_broken_row;
use sheet_rules::{LineFault, Overlap};
use sheet_step::{Draft, read_line};
use text::{LINE_FEED, part_end};

// The overlap of a line, numbered from 1: the area that it shares a cell with, and its own, which comes after so many.
pub fn overlap_at(shared: Option<u32>, areas: u32, line: u32) -> Option<Overlap>
    requires { area_number_of shared ≤ 64 }
    ensures overlap { noted result ≡ noted_at (area_number_of shared) areas line }
    ensures numbered { NumberedPair result }
{
    let index = shared?;
    Some(Overlap {
        earlier: index + 1,
        later: areas.min(MOST_AREAS) + 1,
        line,
    })
}

// The line of the last row of a broken picture, of which one that was noted stays: here line `line`, after which the rest of the sheet comes.
fn broken_line(noted: Option<u32>, broken: bool, text: &[u8], rest: &[u8], line: u32) -> Option<u32>
    requires noted { IsLine noted }
    requires line { 0 < line }
    ensures line { line_or_none result ≡ or_line (line_or_none noted) (broken_note broken (split 9 text.now) (lines_from (split 10 rest.now)) line) }
    ensures positive { IsLine result }
{
    if noted.is_none() && last_broken_row(broken, text, rest) {
        return Some(line);
    }
    noted
}

// Lines of which one is refused, with what was noted before it.
fn refused_at(overlap: Option<Overlap>, broken: Option<u32>, fault: Fault, line: u32) -> LinesRead
    ensures { result ≡ record { overlap = overlap; broken = broken; end = Err (record { fault = fault; line = line }) } }
{
    let end = Err(LineFault { fault, line });
    LinesRead {
        overlap,
        broken,
        end,
    }
}

// Line after line into the draft, until one is refused; the first overlap and the last row of a broken picture are noted, and reading goes on.
pub fn read_lines(sheet: &[u8], draft: &mut Draft) -> LinesRead
    requires { length sheet.now ≤ 32768 }
    ensures lines { record { fault = fault_in result.end; line = stop_in result.end; held = held_of draft.new } ≡ held_run 1 (split 10 sheet.now) (held_of draft.old) }
    ensures overlap { noted result.overlap ≡ held_overlap 1 (split 10 sheet.now) (held_of draft.old) }
    ensures numbered { NumberedPair result.overlap }
    ensures picture { line_or_none result.broken ≡ held_broken 1 (split 10 sheet.now) (held_of draft.old) }
    ensures positive { IsLine result.broken }
{
    let mut overlap = None;
    let mut broken = None;
    let mut at: usize = 0;
    let mut line: u32 = 1;
    while at < sheet.len() {
        let end = part_end(sheet, at, LINE_FEED);
        if end == sheet.len() {
            return refused_at(overlap, broken, Fault::Unread, line);
        }
        let text = &sheet[at..end];
        let areas = draft.panel.grid.areas;
        let read = read_line(draft, text);
        overlap = overlap.or(overlap_at(read.shared, areas, line));
        if let Some(fault) = read.fault {
            return refused_at(overlap, broken, fault, line);
        }
        at = end + 1;
        let rest = &sheet[at..];
        broken = broken_line(broken, draft.reading.picture.broken, text, rest, line);
        line += 1;
    }
    LinesRead {
        overlap,
        broken,
        end: Ok(line),
    }
}
