// Where the cells of a panel land, for programs in C and Rust.
ghost use Rattle.std.specs.Prelude.{◌≡◌};
ghost use Rattle.panel_hits.specs.Settled.{lent_in};
ghost use Rattle.palgwern.specs.Cells.{packing_in, cells_numbers, CellsPlaced};

use cell_placing::{MOST_PLACED, Packing};
use coordinates::Fault;
use panel_placing::place_cells;
use panel_tables::region::{PANEL_BYTES, PANEL_WORDS};
use panel_tables::{Grid, LentPanel};
use sheet_rules::LineFault;

// How many cells were placed, or a refusal with its line and 0.
#[repr(C)]
#[derive(Clone, Copy, Debug, PartialEq, Eq, Default)]
pub struct CellsAnswer {
    pub number: u32,
    pub line: u32,
    pub count: u32,
}

impl From<Result<u32, LineFault>> for CellsAnswer {
    ghost from_gives = { λ placed answer. answer ≡ cells_numbers placed };

    // The answer as numbers, for programs in C.
    fn from(placed: Result<u32, LineFault>) -> CellsAnswer {
        match placed {
            Ok(count) => CellsAnswer {
                number: 0,
                line: 0,
                count,
            },
            Err(told) => CellsAnswer {
                number: u32::from(told.fault),
                line: told.line,
                count: 0,
            },
        }
    }
}

// The packing of a number: 0 sparse, 1 dense.
pub(crate) fn packing_in(number: u32) -> Option<Packing>
    ensures { result ≡ packing_in number }
{
    match number {
        0 => Some(Packing::Sparse),
        1 => Some(Packing::Dense),
        _ => None,
    }
}

// Where the cells land, in sparse or dense packing: a word for each, in sheet order.
#[unsafe(no_mangle)]
pub extern "C" fn palgwern_place_cells(
    grid: Grid,
    words: &[u64; PANEL_WORDS],
    bytes: &[u8; PANEL_BYTES],
    columnstore: &[u8],
    rowstore: &[u8],
    packing: u32,
    lands: &mut [u64; MOST_PLACED],
) -> CellsAnswer
    ensures { CellsPlaced grid (lent_in words.now bytes.now columnstore.now rowstore.now) packing lands.old lands.new result }
{
    let Some(packing) = packing_in(packing) else {
        return CellsAnswer::from(Err(LineFault {
            fault: Fault::Count,
            line: 0,
        }));
    };
    let lent = LentPanel {
        words,
        bytes,
        columnstore,
        rowstore,
    };
    CellsAnswer::from(place_cells(grid, lent, packing, lands))
}
