// An edit that enters a name in a line of an axis.
ghost use Rattle.std.specs.Prelude.{◌≡◌, ◌≤◌, take, true};
ghost use Rattle.name_entries.specs.Names.{is_name};
ghost use Rattle.sheet_rules.specs.Panels.{tables_in};
ghost use Rattle.panel_history.specs.History.{Handed, answered_edit};
ghost use Rattle.panel_history.specs.Names.{entry_head, enter_text, edited_name};

use crate::editing::edit;
use crate::{Edited, History};
use axis_tables::name::put_bytes;
use coordinates::{Axis, Fault};
use history_lines::StepLine;
use name_entries::name::is_name;
use panel_edits::Entry;
use panel_tables::region::{PANEL_BYTES, PANEL_WORDS};
use sheet_rules::SheetFault;

// The most bytes of the text of an entry: `enter`, an axis, ten digits, a name of 32 bytes, three tabs; and a line feed.
const ENTRY_BYTES: usize = 52;

// The first fields of an entry's text.
fn entry_head(axis: Axis) -> &'static [u8]
    ensures { result.now ≡ entry_head axis }
{
    match axis {
        Axis::Column => b"enter\tc\t",
        Axis::Row => b"enter\tr\t",
    }
}

// The text of an entry at the start of these bytes, and its length. Its line and its name are written as a step's number and its text are.
fn write_entry(entry: Entry<'_>, bytes: &mut [u8; ENTRY_BYTES]) -> usize
    requires { is_name entry.name.now ≡ true }
    ensures { (take result bytes.new ≡ enter_text entry.entry.axis entry.entry.line entry.entry.name.now) × (result ≤ 52) }
{
    let head = entry_head(entry.axis);
    let line = StepLine {
        number: u64::from(entry.line),
        text: entry.name,
    };
    put_bytes(bytes, 0, head);
    line.write(bytes, head.len());
    head.len() + line.len() - 1
}

// The same as an edit whose line enters a name: 2 for what is none.
pub fn edit_name(
    sheet: &[u8],
    entry: Entry<'_>,
    history: History,
    words: &mut [u64; PANEL_WORDS],
    bytes: &mut [u8; PANEL_BYTES],
    columnstore: &mut [u8],
    rowstore: &mut [u8],
    lines: &mut [u8],
) -> Result<Edited, SheetFault>
    ensures { record { answer = answered_edit result; tables = tables_in words.new bytes.new columnstore.new rowstore.new; bytes = lines.new } ≡ edited_name sheet.now entry.entry.axis entry.entry.line entry.entry.name.now (record { history = history; tables = tables_in words.old bytes.old columnstore.old rowstore.old; bytes = lines.old }) }
{
    if !is_name(entry.name) {
        return Err(SheetFault::Whole(Fault::Name));
    }
    let mut text = [0; ENTRY_BYTES];
    let length = write_entry(entry, &mut text);
    edit(
        sheet,
        &text[..length],
        history,
        words,
        bytes,
        columnstore,
        rowstore,
        lines,
    )
}
