// A sheet read as a whole.
ghost use Rattle.std.specs.Prelude.{◌≡◌, IfOk, IfErr};
ghost use Rattle.axis_tables.specs.Runs.{put_bytes, part_of};
ghost use Rattle.sheet_rules.specs.Answers.{noted, NumberedPair, TellsPair, answered_sheet, answered_display};
ghost use Rattle.sheet_rules.specs.Panels.{tables_in};
ghost use Rattle.sheet_rules.specs.Sheet.{overlap_of};
ghost use Rattle.sheet_rules.specs.Read.{SheetRead, read_sheet, DisplayRead, read_display};
ghost use Rattle.sheet_step.specs.Drafts.{held_of};
ghost use Rattle.sheet.specs.Steps.{fault_in, line_of, judged_by, judgement, copied, answered_read, read_under};

use crate::end::read_panel;
use crate::{ReadPanel, SheetRun};
use axis_tables::layout::{AXIS_BYTES, part_from};
use axis_tables::name::put_bytes;
use coordinates::Fault;
use panel_tables::region::{PANEL_BYTES, PANEL_WORDS};
use panel_tables::{Panel, Reading};
use sheet_rules::{Display, SHEET_BYTES, SheetFault};
use sheet_step::Draft;

// What a sheet is refused by: two areas that share a cell, but not under the former rule, else its own fault.
fn judged(former: bool, run: SheetRun) -> Result<(), SheetFault>
    requires { NumberedPair run.overlap }
    ensures { judgement result ≡ judged_by former (noted run.overlap) (fault_in run.end) (line_of run.end) }
{
    match run.overlap {
        Some(overlap) if !former => Err(SheetFault::Overlap(overlap)),
        _ => run.end.map_err(SheetFault::Line),
    }
}

// The names of an axis at the start of a store, of which the rest stays.
fn copy_names(store: &mut [u8], bytes: &[u8; AXIS_BYTES], used: u32)
    ensures { store.new ≡ put_bytes store.old 0 (part_of bytes.now 0 used) }
{
    put_bytes(store, 0, part_from(bytes, 0, used));
}

// The tables of a draft and the names of its axes, copied into the lent arrays and stores.
#[tactic(auto, unfolding(sheet_rules::specs::Panels::tables_in, panel_tables::specs::Written::panel_held_of))]
pub fn copy_out(
    draft: &Draft,
    words: &mut [u64; PANEL_WORDS],
    bytes: &mut [u8; PANEL_BYTES],
    columnstore: &mut [u8],
    rowstore: &mut [u8],
)
    ensures { tables_in words.new bytes.new columnstore.new rowstore.new ≡ copied (held_of draft.now) columnstore.old rowstore.old }
{
    *words = draft.words;
    *bytes = draft.bytes;
    copy_names(
        columnstore,
        &draft.column_bytes,
        draft.panel.room.columns.used,
    );
    copy_names(rowstore, &draft.row_bytes, draft.panel.room.rows.used);
}

// The panel that a sheet describes under one of the two rules, in the answer and the lent arrays and stores, with the first overlap. On a
// refusal all that is lent stays as it was.
fn read_tables(
    former: bool,
    sheet: &[u8],
    words: &mut [u64; PANEL_WORDS],
    bytes: &mut [u8; PANEL_BYTES],
    columnstore: &mut [u8],
    rowstore: &mut [u8],
) -> Result<ReadPanel, SheetFault>
    ensures read { record { answer = answered_read result; tables = tables_in words.new bytes.new columnstore.new rowstore.new } ≡ read_under former sheet.now (tables_in words.old bytes.old columnstore.old rowstore.old) }
    ensures pair { IfOk result (λ r. noted r.overlap ≡ overlap_of sheet.now) }
    ensures numbered { IfOk result (λ r. NumberedPair r.overlap) }
    ensures fault { IfErr result (λ f. TellsPair f) }
{
    if SHEET_BYTES < sheet.len() {
        return Err(SheetFault::Whole(Fault::Unread));
    }
    let mut draft = Draft {
        panel: Panel::default(),
        reading: Reading::default(),
        words: [0; PANEL_WORDS],
        bytes: [0; PANEL_BYTES],
        column_bytes: [0; AXIS_BYTES],
        row_bytes: [0; AXIS_BYTES],
    };
    let run = read_panel(sheet, &mut draft);
    judged(former, run)?;
    let shorter = columnstore.len().min(rowstore.len());
    if shorter < AXIS_BYTES {
        return Err(SheetFault::Whole(Fault::Short));
    }
    copy_out(&draft, words, bytes, columnstore, rowstore);
    Ok(ReadPanel {
        panel: draft.panel,
        overlap: run.overlap,
    })
}

// The panel that a sheet describes, in the answer and the lent arrays and stores. Two areas that share a cell are refused, and answered as a
// pair. On a refusal all that is lent stays as it was.
pub fn read_sheet(
    sheet: &[u8],
    words: &mut [u64; PANEL_WORDS],
    bytes: &mut [u8; PANEL_BYTES],
    columnstore: &mut [u8],
    rowstore: &mut [u8],
) -> Result<Panel, SheetFault>
    ensures read { record { answer = answered_sheet result; tables = tables_in words.new bytes.new columnstore.new rowstore.new } ≡ read_sheet sheet.now (tables_in words.old bytes.old columnstore.old rowstore.old) }
    ensures fault { IfErr result (λ f. TellsPair f) }
{
    let read = read_tables(false, sheet, words, bytes, columnstore, rowstore)?;
    Ok(read.panel)
}

// A sheet for display, under the former rule: areas may share cells, and the first two that do are answered. What is lent is filled as by
// `read_sheet`; there is nothing to edit. On a refusal all that is lent stays as it was.
pub fn display_sheet(
    sheet: &[u8],
    words: &mut [u64; PANEL_WORDS],
    bytes: &mut [u8; PANEL_BYTES],
    columnstore: &mut [u8],
    rowstore: &mut [u8],
) -> Result<Display, SheetFault>
    ensures display { record { answer = answered_display result; tables = tables_in words.new bytes.new columnstore.new rowstore.new } ≡ read_display sheet.now (tables_in words.old bytes.old columnstore.old rowstore.old) }
    ensures pair { IfOk result (λ d. noted d.overlap ≡ overlap_of sheet.now) }
    ensures numbered { IfOk result (λ d. NumberedPair d.overlap) }
    ensures fault { IfErr result (λ f. TellsPair f) }
{
    let read = read_tables(true, sheet, words, bytes, columnstore, rowstore)?;
    Ok(Display {
        grid: read.panel.grid,
        overlap: read.overlap,
    })
}
