// An edit through a history.
ghost use Rattle.std.specs.Prelude.{◌≡◌, ℕ, List};
ghost use Rattle.coordinates.specs.Refusals.{refused_by};
ghost use Rattle.panel_tables.specs.Written.{held_panel};
ghost use Rattle.sheet_rules.specs.Panels.{tables_in};
ghost use Rattle.sheet_step.specs.Drafts.{held_of};
ghost use Rattle.edit_rules.specs.Bases.{base_of};
ghost use Rattle.panel_history.specs.History.{Handed, answered_edit, edited};
ghost use Rattle.panel_history.specs.Steps.{ended_edit, EditAsked};

use crate::replay::{apply_lines, end_lines};
use crate::{Edited, History, check_stores};
use coordinates::Fault;
use history_lines::StepLine;
use panel_edits::{apply, draft_sheet, empty_draft, enter};
use panel_tables::region::{PANEL_BYTES, PANEL_WORDS};
use sheet::copy_out;
use sheet_rules::SheetFault;
use sheet_step::Draft;

// The end after the texts of the first lines and one more, and the direct entries among them.
fn end_edit(draft: &mut Draft, lines: &[u8], step: u64, text: &[u8]) -> Result<(), Fault>
    ensures { record { fault = refused_by result; held = held_of draft.new } ≡ ended_edit step lines.now text.now (held_of draft.old) }
{
    end_lines(draft, lines, step)?;
    enter(draft, text)
}

// The edits of the first lines and one more after the lines of a sheet, in a draft; and the place after those first lines.
fn replay_edit(draft: &mut Draft, lines: &[u8], step: u64, text: &[u8]) -> Result<usize, SheetFault>
    ensures { (sheet : List ℕ) → held_of draft.old ≡ held_panel (base_of sheet).view → EditAsked (base_of sheet).view step lines.now text.now result (held_of draft.new) }
{
    let Some(place) = apply_lines(draft, lines, step) else {
        return Err(SheetFault::Whole(Fault::NoStep));
    };
    apply(draft, text)?;
    match end_edit(draft, lines, step, text) {
        Ok(()) => Ok(place),
        Err(fault) => Err(SheetFault::Whole(fault)),
    }
}

// The panel that one edit more gives after those of the steps up to the panel's own, in the answer and the lent arrays and stores, and the edit's
// line after theirs. Later steps are dropped. On a refusal all that is lent stays as it was.
pub fn edit(
    sheet: &[u8],
    text: &[u8],
    history: History,
    words: &mut [u64; PANEL_WORDS],
    bytes: &mut [u8; PANEL_BYTES],
    columnstore: &mut [u8],
    rowstore: &mut [u8],
    lines: &mut [u8],
) -> Result<Edited, SheetFault>
    ensures { record { answer = answered_edit result; tables = tables_in words.new bytes.new columnstore.new rowstore.new; bytes = lines.new } ≡ edited sheet.now text.now (record { history = history; tables = tables_in words.old bytes.old columnstore.old rowstore.old; bytes = lines.old }) }
{
    let mut draft = empty_draft();
    draft_sheet(sheet, &mut draft)?;
    let place = replay_edit(&mut draft, lines, history.step, text)?;
    check_stores(columnstore, rowstore)?;
    let number = history.step + 1;
    let line = StepLine { number, text };
    let Some(_) = line.write(lines, place) else {
        return Err(SheetFault::Whole(Fault::HistoryFull));
    };
    copy_out(&draft, words, bytes, columnstore, rowstore);
    Ok(Edited {
        panel: draft.panel,
        history: History {
            step: number,
            last: number,
        },
    })
}
