// The start of the answer to a sheet: it is read and its cells are placed before a line is printed.
ghost use Rattle.std.specs.Prelude.{◌≡◌};
ghost use Rattle.sheet_rules.specs.Panels.{tables_in};
ghost use Rattle.sheet_rules.specs.Read.{read_sheet};
ghost use Rattle.panel_answer.specs.Listed.{answered_line};
ghost use Rattle.panel_answer.specs.Printed.{PrintedFor};
ghost use Rattle.panel_answer.specs.Text.{text_from};
ghost use Rattle.panel_answer.specs.Walk.{first_line};

use crate::{AnswerLine, Begun, LineRefusal};
use cell_placing::{MOST_PLACED, Packing};
use coordinates::Axis;
use panel_placing::place_cells;
use panel_tables::region::{PANEL_BYTES, PANEL_WORDS};
use panel_tables::{Grid, LentPanel};
use sheet::read_sheet;
use sheet_rules::{LineFault, SheetFault};

// The first line of the answer to a sheet whose cells were placed.
fn first_line(placed: Result<u32, LineFault>) -> AnswerLine
    ensures { answered_line result ≡ first_line placed }
{
    match placed {
        Ok(_) => AnswerLine::Size(Axis::Column),
        Err(fault) => AnswerLine::Refused(LineRefusal::from(SheetFault::Line(fault))),
    }
}

// Reads a sheet and places its cells sparsely: the text of its answer is that from the first line on.
pub fn begin_answer(
    sheet: &[u8],
    words: &mut [u64; PANEL_WORDS],
    bytes: &mut [u8; PANEL_BYTES],
    columnstore: &mut [u8],
    rowstore: &mut [u8],
    lands: &mut [u64; MOST_PLACED],
) -> Begun
    ensures printed { PrintedFor sheet.now (tables_in words.old bytes.old columnstore.old rowstore.old) lands.old (text_from (record { grid = result.grid; tables = tables_in words.new bytes.new columnstore.new rowstore.new; lands = lands.new }) (answered_line result.first)) }
    ensures lent { tables_in words.new bytes.new columnstore.new rowstore.new ≡ (read_sheet sheet.now (tables_in words.old bytes.old columnstore.old rowstore.old)).tables }
{
    let grid = match read_sheet(sheet, words, bytes, columnstore, rowstore) {
        Ok(panel) => panel.grid,
        Err(fault) => {
            return Begun {
                grid: Grid::default(),
                first: AnswerLine::Refused(LineRefusal::from(fault)),
            };
        }
    };
    let lent = LentPanel {
        words,
        bytes,
        columnstore,
        rowstore,
    };
    let first = first_line(place_cells(grid, lent, Packing::Sparse, lands));
    Begun { grid, first }
}
