// What comes after the last line of a sheet: the end of both axes.
ghost use Rattle.std.specs.Prelude.{◌≡◌, ◌≤◌, length};
ghost use Rattle.text.specs.Split.{split};
ghost use Rattle.coordinates.specs.Refusals.{refused_by};
ghost use Rattle.axis_tables.specs.Readings.{axis_reading};
ghost use Rattle.sheet_rules.specs.Answers.{noted, NumberedPair};
ghost use Rattle.sheet_end.specs.End.{answered_end};
ghost use Rattle.sheet_step.specs.Drafts.{held_of};
ghost use Rattle.sheet.specs.Runs.{held_end, held_overlap, held_judged};
ghost use Rattle.sheet.specs.Steps.{ended_in, at_line, EndsAsRun};

use crate::SheetRun;
use crate::lines::read_lines;
use axis_tables::layout::AXIS_WORDS;
use axis_tables::{AxisAfter, AxisState};
use coordinates::{Axis, Fault};
use panel_tables::axis::with_state;
use panel_tables::region::{PANEL_WORDS, first_word};
use sheet_end::end_axis;
use sheet_rules::LineFault;
use sheet_step::{Draft, first_refusal};

// One axis, in its part of the words.
fn end_in(axis: Axis, before: AxisAfter, words: &mut [u64; PANEL_WORDS]) -> Result<AxisState, Fault>
    ensures ended { record { answer = answered_end before.state result; words = words.new } ≡ ended_in axis before.state (axis_reading before.reading) words.old }
    ensures length { length words.new ≡ 26368 }
{
    let first = first_word(axis);
    let end = first + AXIS_WORDS;
    end_axis(before, &mut words[first..end])
}

// Both axes: the first of their faults, and the panel with their sizes. All else stays.
pub fn end_panel(draft: &mut Draft) -> Result<(), Fault>
    ensures { record { fault = refused_by result; line = 0; held = held_of draft.new } ≡ held_end 0 (held_of draft.old) }
{
    let columns = draft.axis(Axis::Column);
    let rows = draft.axis(Axis::Row);
    let columns_end = end_in(Axis::Column, columns, &mut draft.words);
    let rows_end = end_in(Axis::Row, rows, &mut draft.words);
    let columns_ended = with_state(
        draft.panel,
        Axis::Column,
        columns_end.unwrap_or(columns.state),
    );
    draft.panel = with_state(columns_ended, Axis::Row, rows_end.unwrap_or(rows.state));
    first_refusal(columns_end, rows_end)
}

// A fault at a line.
fn at_line(end: Result<(), Fault>, line: u32) -> Result<(), LineFault>
    ensures { result ≡ at_line line end }
{
    end.map_err(|fault| LineFault { fault, line })
}

// The lines and the end of a sheet into the draft. A broken picture is refused by 14 at its last row: no line before that one is refused.
pub(crate) fn read_panel(sheet: &[u8], draft: &mut Draft) -> SheetRun
    requires { length sheet.now ≤ 32768 }
    ensures run { EndsAsRun result.end (held_of draft.new) (held_judged sheet.now (held_of draft.old)) }
    ensures overlap { noted result.overlap ≡ held_overlap 1 (split 10 sheet.now) (held_of draft.old) }
    ensures numbered { NumberedPair result.overlap }
{
    let lines = read_lines(sheet, draft);
    let overlap = lines.overlap;
    if let Some(line) = lines.broken {
        let end = Err(LineFault {
            fault: Fault::Broken,
            line,
        });
        return SheetRun { overlap, end };
    }
    let end = match lines.end {
        Ok(line) => at_line(end_panel(draft), line),
        Err(refused) => Err(refused),
    };
    SheetRun { overlap, end }
}
