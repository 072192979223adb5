// A step of a history recalled.
ghost use Rattle.std.specs.Prelude.{◌≡◌, ℕ, List};
ghost use Rattle.panel_tables.specs.Written.{held_panel};
ghost use Rattle.sheet_rules.specs.Panels.{tables_in};
ghost use Rattle.sheet_step.specs.Drafts.{held_of};
ghost use Rattle.edit_rules.specs.Bases.{base_of};
ghost use Rattle.panel_history.specs.History.{Handed, answered_edit, recalled};
ghost use Rattle.panel_history.specs.Steps.{StepsAsked};

use crate::replay::{apply_lines, end_lines};
use crate::{Edited, History, check_stores};
use coordinates::Fault;
use panel_edits::{draft_sheet, empty_draft};
use panel_tables::region::{PANEL_BYTES, PANEL_WORDS};
use sheet::copy_out;
use sheet_rules::SheetFault;
use sheet_step::Draft;

// The edits of the first lines after the lines of a sheet, in a draft; none where a line is not there, or they are no accepted edits.
fn replay_steps(draft: &mut Draft, lines: &[u8], step: u64) -> Option<()>
    ensures { (sheet : List ℕ) → held_of draft.old ≡ held_panel (base_of sheet).view → StepsAsked (base_of sheet).view step lines.now result (held_of draft.new) }
{
    apply_lines(draft, lines, step)?;
    end_lines(draft, lines, step).ok()
}

// The panel that the edits of the first steps give after the sheet, in the answer and the lent arrays and stores. The lines stay, so that later
// steps can be recalled too. On a refusal all that is lent stays as it was.
pub fn recall(
    sheet: &[u8],
    step: u64,
    history: History,
    words: &mut [u64; PANEL_WORDS],
    bytes: &mut [u8; PANEL_BYTES],
    columnstore: &mut [u8],
    rowstore: &mut [u8],
    lines: &[u8],
) -> Result<Edited, SheetFault>
    ensures { record { answer = answered_edit result; tables = tables_in words.new bytes.new columnstore.new rowstore.new; bytes = lines.now } ≡ recalled sheet.now step (record { history = history; tables = tables_in words.old bytes.old columnstore.old rowstore.old; bytes = lines.now }) }
{
    let mut draft = empty_draft();
    draft_sheet(sheet, &mut draft)?;
    check_stores(columnstore, rowstore)?;
    if history.last < step {
        return Err(SheetFault::Whole(Fault::NoStep));
    }
    let Some(()) = replay_steps(&mut draft, lines, step) else {
        return Err(SheetFault::Whole(Fault::NoStep));
    };
    copy_out(&draft, words, bytes, columnstore, rowstore);
    Ok(Edited {
        panel: draft.panel,
        history: History {
            step,
            last: history.last,
        },
    })
}
