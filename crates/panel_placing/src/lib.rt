// Where the cells of a panel land (document 02, Req 10): all placements are settled in one run, and the cells among them are then placed.

#![tactic(auto)]

mod gather;

ghost use Rattle.std.specs.Prelude.{◌≡◌};
ghost use Rattle.panel_hits.specs.Settled.{lent_of};
ghost use Rattle.panel_placing.specs.Cells.{CellsAnswered, cells_check};

use cell_placing::pass::place_items;
use cell_placing::{MOST_PLACED, Packing};
use coordinates::Fault;
use coordinates::limit::STORE_BYTES;
use coordinates::line::check_explicit;
use gather::gather_cells;
use panel_names::LentNames;
use panel_tables::placement::cell_line;
use panel_tables::region::placement_words;
use panel_tables::{Grid, LentPanel};
use sheet_rules::LineFault;

// Refused, whatever the cells: 4 for an explicit count that no sheet gives, then 10 for a short store.
#[tactic(auto, unfolding(crate::specs::Cells::cells_check))]
fn check_panel(grid: Grid, lent: LentPanel) -> Result<(), Fault>
    ensures { result ≡ cells_check grid (lent_of lent.entry) }
{
    check_explicit(grid.columns.size.explicit)?;
    check_explicit(grid.rows.size.explicit)?;
    if LentNames::from(lent).shorter_store() < STORE_BYTES {
        return Err(Fault::Short);
    }
    Ok(())
}

// Places the cells of a panel, and answers how many there are. The lent words take where each lands, in sheet order; those past the cells
// stay. Refuses an explicit count that no sheet gives by 4, a store below 32,768 bytes by 10, both at line 0, and then by 15 the first cell
// in placing order that lands nowhere, at its line of the sheet; all words stay then.
pub fn place_cells(
    grid: Grid,
    lent: LentPanel,
    packing: Packing,
    lands: &mut [u64; MOST_PLACED],
) -> Result<u32, LineFault>
    ensures { CellsAnswered grid (lent_of lent.entry) packing lands.old lands.new result }
{
    if let Err(fault) = check_panel(grid, lent) {
        return Err(LineFault { fault, line: 0 });
    }
    let mut items: [u64; MOST_PLACED] = [0; MOST_PLACED];
    let count = gather_cells(grid, lent, &mut items);
    let last = grid.columns.size.explicit as u16 + 1;
    match place_items(last, &items[..count as usize], packing, lands) {
        Ok(()) => Ok(count),
        Err(index) => Err(LineFault {
            fault: Fault::Unplaced,
            line: cell_line(placement_words(lent.words), index),
        }),
    }
}
