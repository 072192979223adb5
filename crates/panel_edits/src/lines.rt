// Texts of edits before what comes after the last line of a sheet.
ghost use Rattle.std.specs.Prelude.{◌≡◌, ◌≤◌};
ghost use Rattle.text.specs.Split.{split};
ghost use Rattle.coordinates.specs.Refusals.{fault_number};
ghost use Rattle.panel_cells.specs.Steps.{area_number_of};
ghost use Rattle.sheet_faults.specs.Lines.{line_in, line_shared};
ghost use Rattle.sheet_step.specs.Drafts.{held_of};
ghost use Rattle.sheet.specs.Steps.{judgement};
ghost use Rattle.panel_edits.specs.Applied.{reopened_held, read_judgement, line_applied, applied};

use crate::texts::{Edit, read_edit};
use coordinates::Fault;
use panel_tables::stage::Stage;
use sheet::lines::overlap_at;
use sheet_rules::SheetFault;
use sheet_step::{Draft, LineRead, read_line};

// One line more, after the areas, so that an area, a track and a placement are not late.
#[tactic(auto, unfolding(panel_tables::specs::Written::panel_held_of))]
fn edit_line(draft: &mut Draft, text: &[u8]) -> LineRead
    ensures read { record { fault = fault_number result.fault; held = held_of draft.new } ≡ line_in (reopened_held (held_of draft.old)) (split 9 text.now) }
    ensures overlap { area_number_of result.shared ≡ line_shared (reopened_held (held_of draft.old)) (split 9 text.now) }
{
    draft.reading.stage = Stage::Areas;
    read_line(draft, text)
}

// What a line after so many areas is refused by.
fn judged(read: LineRead, areas: u32) -> Result<(), SheetFault>
    requires { area_number_of read.shared ≤ 64 }
    ensures { judgement result ≡ read_judgement areas (area_number_of read.shared) (fault_number read.fault) }
{
    if let Some(overlap) = overlap_at(read.shared, areas, 0) {
        return Err(SheetFault::Overlap(overlap));
    }
    match read.fault {
        Some(fault) => Err(SheetFault::Whole(fault)),
        None => Ok(()),
    }
}

// A line of an edit. A line with a fault may have written.
fn apply_line(draft: &mut Draft, text: &[u8]) -> Result<(), SheetFault>
    ensures { record { answer = judgement result; held = held_of draft.new } ≡ line_applied (held_of draft.old) (split 9 text.now) }
{
    let areas = draft.panel.grid.areas;
    let read = edit_line(draft, text);
    judged(read, areas)
}

// The text of an edit: a line is read, an entry waits for what comes after the last line, and any other text is unread.
#[tactic(auto, unfolding(crate::specs::Applied::applied))]
pub fn apply(draft: &mut Draft, text: &[u8]) -> Result<(), SheetFault>
    ensures { record { answer = judgement result; held = held_of draft.new } ≡ applied (held_of draft.old) text.now }
{
    match read_edit(text) {
        Some(Edit::Line) => apply_line(draft, text),
        Some(Edit::Enter(_)) => Ok(()),
        None => Err(SheetFault::Whole(Fault::Unread)),
    }
}
