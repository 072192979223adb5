// The history of a panel (document 02, Req 14): each accepted edit is a line of its bytes, and what the first steps give is brought back by
// reading the sheet again with their edits after its lines.

#![tactic(auto)]

mod editing;
mod entering;
mod recalling;
mod replay;

ghost use Rattle.std.specs.Prelude.{◌≡◌};
ghost use Rattle.sheet.specs.Steps.{judgement};
ghost use Rattle.panel_history.specs.Steps.{stores_judgement};

use coordinates::Fault;
use coordinates::limit::STORE_BYTES;
pub use editing::edit;
pub use entering::edit_name;
use panel_tables::Panel;
pub use recalling::recall;
use sheet_rules::SheetFault;

// The step of a panel, and the last step of its history. Both are 0 after a sheet is read.
#[repr(C)]
#[derive(Clone, Copy, Debug, PartialEq, Eq, Default)]
pub struct History {
    pub step: u64,
    pub last: u64,
}

// The panel that edits give, with its step.
#[derive(Clone, Copy, Debug, PartialEq, Eq)]
pub struct Edited {
    pub panel: Panel,
    pub history: History,
}

// Whether the two stores are long enough.
fn check_stores(columnstore: &[u8], rowstore: &[u8]) -> Result<(), SheetFault>
    ensures { judgement result ≡ stores_judgement columnstore.now rowstore.now }
{
    let shorter = columnstore.len().min(rowstore.len());
    if shorter < STORE_BYTES {
        return Err(SheetFault::Whole(Fault::Short));
    }
    Ok(())
}
