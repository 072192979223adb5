// Texts of edits after what comes after the last line of a sheet: direct entries.
ghost use Rattle.std.specs.Prelude.{◌≡◌};
ghost use Rattle.coordinates.specs.Refusals.{refused_by};
ghost use Rattle.sheet_step.specs.Drafts.{held_of};
ghost use Rattle.panel_edits.specs.Entered.{call_entered, entered};
ghost use Rattle.panel_edits.specs.Texts.{call_said};

use crate::texts::{Edit, Entry, read_edit};
use coordinates::Fault;
use panel_names::entering::enter_in_place;
use sheet_step::Draft;

// An entry, entered in the draft.
fn enter_entry(draft: &mut Draft, entry: Entry<'_>) -> Result<(), Fault>
    ensures { record { fault = refused_by result; held = held_of draft.new } ≡ call_entered (held_of draft.old) (call_said entry.entry) }
{
    let (columnstore, rowstore) = (&mut draft.column_bytes, &mut draft.row_bytes);
    enter_in_place(
        &mut draft.panel,
        &mut draft.words,
        columnstore,
        rowstore,
        entry.axis,
        entry.line,
        entry.name,
    )
}

// The text of an edit: an entry is entered, and all else does nothing.
#[tactic(auto, unfolding(crate::specs::Entered::entered))]
pub fn enter(draft: &mut Draft, text: &[u8]) -> Result<(), Fault>
    ensures { record { fault = refused_by result; held = held_of draft.new } ≡ entered (held_of draft.old) text.now }
{
    match read_edit(text) {
        Some(Edit::Enter(entry)) => enter_entry(draft, entry),
        Some(Edit::Line) | None => Ok(()),
    }
}
