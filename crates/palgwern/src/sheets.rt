// The calls that read a sheet, for programs in C and Rust.
ghost use Rattle.std.specs.Prelude.{◌≡◌};
ghost use Rattle.sheet_rules.specs.Read.{read_sheet, read_display};
ghost use Rattle.sheet_rules.specs.Panels.{tables_in};
ghost use Rattle.library_numbers.specs.Answers.{SheetNumbers, sheet_numbers, DisplayNumbers, display_numbers};

use library_numbers::{DisplayAnswer, SheetAnswer};
use panel_tables::region::{PANEL_BYTES, PANEL_WORDS};

// The panel that a sheet describes, in the answer and everything lent.
#[tactic(auto, unfolding(library_numbers::specs::Answers::sheet_numbers))]
#[unsafe(no_mangle)]
pub extern "C" fn palgwern_read_sheet(
    sheet: &[u8],
    words: &mut [u64; PANEL_WORDS],
    bytes: &mut [u8; PANEL_BYTES],
    columnstore: &mut [u8],
    rowstore: &mut [u8],
) -> SheetAnswer
    ensures { record { answer = result; tables = tables_in words.new bytes.new columnstore.new rowstore.new } ≡ sheet_numbers (read_sheet sheet.now (tables_in words.old bytes.old columnstore.old rowstore.old)) }
{
    SheetAnswer::from(sheet::read_sheet(sheet, words, bytes, columnstore, rowstore))
}

// A sheet for display: what answers are read from, in the answer and everything lent, and nothing to edit.
#[tactic(auto, unfolding(library_numbers::specs::Answers::display_numbers))]
#[unsafe(no_mangle)]
pub extern "C" fn palgwern_display_sheet(
    sheet: &[u8],
    words: &mut [u64; PANEL_WORDS],
    bytes: &mut [u8; PANEL_BYTES],
    columnstore: &mut [u8],
    rowstore: &mut [u8],
) -> DisplayAnswer
    ensures { record { answer = result; tables = tables_in words.new bytes.new columnstore.new rowstore.new } ≡ display_numbers (read_display sheet.now (tables_in words.old bytes.old columnstore.old rowstore.old)) }
{
    DisplayAnswer::from(sheet::display_sheet(sheet, words, bytes, columnstore, rowstore))
}
