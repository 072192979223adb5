// Editing a panel through a history, and recalling a step of it, for programs in C and Rust.
ghost use Rattle.std.specs.Prelude.{◌≡◌};
ghost use Rattle.sheet_rules.specs.Panels.{tables_in};
ghost use Rattle.panel_history.specs.History.{Handed, answered_edit};
ghost use Rattle.palgwern.specs.History.{EditNumbers, edit_numbers, edited_of, name_edited_of, recalled_of};

use crate::axis_in;
use library_numbers::SheetAnswer;
use library_numbers::axis::entry_in_no_axis;
use panel_edits::Entry;
use panel_history::{Edited, History, edit, edit_name, recall};
use panel_tables::Panel;
use panel_tables::region::{PANEL_BYTES, PANEL_WORDS};
use sheet_rules::SheetFault;

// What a name is entered in: an axis by its number, and a line.
#[repr(C)]
#[derive(Clone, Copy, Debug, PartialEq, Eq, Default)]
pub struct NameEdit {
    pub axis: u32,
    pub line: u32,
}

// The panel and its step, or a refusal: its number, 0 where there is none, and its line; with 12 the two areas that share a cell, numbered from
// 1. On a refusal the panel and the history come back as they came.
#[repr(C)]
#[derive(Clone, Copy, Debug, PartialEq, Eq, Default)]
pub struct EditAnswer {
    pub number: u32,
    pub line: u32,
    pub earlier: u32,
    pub later: u32,
    pub panel: Panel,
    pub history: History,
}

impl EditAnswer {
    // The answer as numbers, for programs in C, to a call that was handed a panel and a history.
    #[tactic(auto, using(crate::proofs::Edits::refusal_hands_back))]
    fn new(edited: Result<Edited, SheetFault>, panel: Panel, history: History) -> EditAnswer
        ensures { result ≡ edit_numbers panel history (answered_edit edited) }
    {
        match edited {
            Ok(edited) => EditAnswer {
                panel: edited.panel,
                history: edited.history,
                ..EditAnswer::default()
            },
            Err(fault) => {
                let refused = SheetAnswer::from(fault);
                EditAnswer {
                    number: refused.number,
                    line: refused.line,
                    earlier: refused.earlier,
                    later: refused.later,
                    panel,
                    history,
                }
            }
        }
    }
}

// The panel of a sheet with one more edit after those of its step; the edit is the line of the step after it.
#[tactic(auto, unfolding(crate::specs::History::edited_of))]
#[unsafe(no_mangle)]
pub extern "C" fn palgwern_edit(
    sheet: &[u8],
    panel: Panel,
    history: History,
    words: &mut [u64; PANEL_WORDS],
    bytes: &mut [u8; PANEL_BYTES],
    columnstore: &mut [u8],
    rowstore: &mut [u8],
    lines: &mut [u8],
    text: &[u8],
) -> EditAnswer
    ensures { record { answer = result; tables = tables_in words.new bytes.new columnstore.new rowstore.new; bytes = lines.new } ≡ edited_of sheet.now panel (record { history = history; tables = tables_in words.old bytes.old columnstore.old rowstore.old; bytes = lines.old }) text.now }
{
    let edited = edit(
        sheet,
        text,
        history,
        words,
        bytes,
        columnstore,
        rowstore,
        lines,
    );
    EditAnswer::new(edited, panel, history)
}

// The same where the edit enters a name in a line of an axis by its number.
#[tactic(auto, unfolding(crate::specs::History::name_edited_of))]
#[unsafe(no_mangle)]
pub extern "C" fn palgwern_edit_name(
    sheet: &[u8],
    panel: Panel,
    history: History,
    words: &mut [u64; PANEL_WORDS],
    bytes: &mut [u8; PANEL_BYTES],
    columnstore: &mut [u8],
    rowstore: &mut [u8],
    lines: &mut [u8],
    entry: NameEdit,
    name: &[u8],
) -> EditAnswer
    ensures { record { answer = result; tables = tables_in words.new bytes.new columnstore.new rowstore.new; bytes = lines.new } ≡ name_edited_of sheet.now panel (record { history = history; tables = tables_in words.old bytes.old columnstore.old rowstore.old; bytes = lines.old }) entry name.now }
{
    let Ok(axis) = axis_in(entry.axis) else {
        return EditAnswer::new(
            Err(SheetFault::Whole(entry_in_no_axis(name))),
            panel,
            history,
        );
    };
    let line = entry.line;
    let entered = Entry { axis, line, name };
    let edited = edit_name(
        sheet,
        entered,
        history,
        words,
        bytes,
        columnstore,
        rowstore,
        lines,
    );
    EditAnswer::new(edited, panel, history)
}

// The panel of a sheet with the edits of the first steps, whatever the panel holds now.
#[tactic(auto, unfolding(crate::specs::History::recalled_of))]
#[unsafe(no_mangle)]
pub extern "C" fn palgwern_recall(
    sheet: &[u8],
    panel: Panel,
    history: History,
    words: &mut [u64; PANEL_WORDS],
    bytes: &mut [u8; PANEL_BYTES],
    columnstore: &mut [u8],
    rowstore: &mut [u8],
    lines: &[u8],
    step: u64,
) -> EditAnswer
    ensures { record { answer = result; tables = tables_in words.new bytes.new columnstore.new rowstore.new; bytes = lines.now } ≡ recalled_of sheet.now panel (record { history = history; tables = tables_in words.old bytes.old columnstore.old rowstore.old; bytes = lines.now }) step }
{
    let recalled = recall(
        sheet,
        step,
        history,
        words,
        bytes,
        columnstore,
        rowstore,
        lines,
    );
    EditAnswer::new(recalled, panel, history)
}
