// The lines of a sheet in a draft, before what comes after the last.
ghost use Rattle.std.specs.Prelude.{◌≡◌, IfOk};
ghost use Rattle.panel_tables.specs.Written.{held_panel};
ghost use Rattle.sheet_rules.specs.Answers.{NumberedPair};
ghost use Rattle.sheet_step.specs.Drafts.{held_of};
ghost use Rattle.sheet.specs.Steps.{IsLine, judgement, zero_held};
ghost use Rattle.edit_rules.specs.Bases.{base_of};
ghost use Rattle.panel_edits.specs.Bases.{lines_judgement, base_judgement};

use axis_tables::layout::AXIS_BYTES;
use coordinates::Fault;
use panel_tables::region::{PANEL_BYTES, PANEL_WORDS};
use panel_tables::{Panel, Reading};
use sheet::LinesRead;
use sheet::lines::read_lines;
use sheet_rules::{LineFault, SHEET_BYTES, SheetFault};
use sheet_step::Draft;

// Zeros, to read into.
pub fn empty_draft() -> Draft
    ensures { held_of result ≡ zero_held }
{
    Draft {
        panel: Panel::default(),
        reading: Reading::default(),
        words: [0; PANEL_WORDS],
        bytes: [0; PANEL_BYTES],
        column_bytes: [0; AXIS_BYTES],
        row_bytes: [0; AXIS_BYTES],
    }
}

// What lines are refused by: two areas that share a cell, else a broken picture, else their own fault.
fn judged_lines(lines: LinesRead) -> Result<(), SheetFault>
    requires overlap { NumberedPair lines.overlap }
    requires picture { IsLine lines.broken }
    ensures { judgement result ≡ lines_judgement lines }
{
    if let Some(overlap) = lines.overlap {
        return Err(SheetFault::Overlap(overlap));
    }
    if let Some(line) = lines.broken {
        let fault = Fault::Broken;
        return Err(SheetFault::Line(LineFault { fault, line }));
    }
    lines.end.map(|_| ()).map_err(SheetFault::Line)
}

// The lines of a sheet, read into an empty draft, or what they are refused by.
pub fn draft_sheet(sheet: &[u8], draft: &mut Draft) -> Result<(), SheetFault>
    requires { held_of draft.old ≡ zero_held }
    ensures answer { judgement result ≡ base_judgement sheet.now }
    ensures held { IfOk result (λ u. held_of draft.new ≡ held_panel (base_of sheet.now).view) }
{
    if SHEET_BYTES < sheet.len() {
        return Err(SheetFault::Whole(Fault::Unread));
    }
    judged_lines(read_lines(sheet, draft))
}
