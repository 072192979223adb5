// Trying a name first (document 02, Req 11): the name is entered on a copy, which answers. All that is lent but the runs of the answer is
// lent shared, so that the true tables and stores keep every byte.

#![tactic(auto)]

mod store;

ghost use Rattle.std.specs.Prelude.{◌≡◌};
ghost use Rattle.panel_hits.specs.Settled.{lent_of};
ghost use Rattle.panel_trial.specs.Trial.{AnswerRuns, PanelAnswered, TrialAnswered};
ghost use Rattle.panel_trial.specs.Runs.{TriedAsRun};

use cell_placing::{MOST_PLACED, Packing};
use coordinates::Axis;
use coordinates::limit::PLACEMENT_RUN;
use panel_names::entering::enter_in_place;
use panel_placing::place_cells;
use panel_resolving::run::write_placements;
use panel_tables::{Grid, LentPanel, Panel};
use sheet_rules::LineFault;
use store::{ENTRY_REACH, copy_reached};

// What is tried beside the bytes of the name, and how cells are packed.
#[derive(Clone, Copy, Debug, PartialEq, Eq)]
pub struct Trial {
    pub axis: Axis,
    pub line: u32,
    pub packing: Packing,
}

// How many placements are settled, and how many cells land.
#[derive(Clone, Copy, Debug, PartialEq, Eq)]
pub struct TrialCounts {
    pub placements: u32,
    pub cells: u32,
}

// All settled placements of a panel and where its cells land. The cells come first, since nothing is written where one lands nowhere; a
// panel without placements has no run.
fn answer_panel(
    grid: Grid,
    lent: LentPanel,
    packing: Packing,
    numbers: &mut [i32; PLACEMENT_RUN],
    lands: &mut [u64; MOST_PLACED],
) -> Result<TrialCounts, LineFault>
    ensures { PanelAnswered grid (lent_of lent.entry) packing (record { numbers = numbers.old; lands = lands.old }) (record { numbers = numbers.new; lands = lands.new }) result }
{
    let cells = place_cells(grid, lent, packing, lands)?;
    let placements = write_placements(grid, lent, 0, numbers).unwrap_or(0);
    Ok(TrialCounts {
        placements: placements as u32,
        cells,
    })
}

// Tries a name on a line of an axis: all settled placements and where the cells land, as they would be after `enter_name`, or the refusal.
// 2: no name; 4: a line outside 1 to 20,000; 8: no room; 10: a store below 32,768 bytes; then those of `place_cells`, 15 for the first cell
// in placing order that lands nowhere, at its line. Nothing is written on a refusal.
pub fn try_name(
    panel: Panel,
    lent: LentPanel,
    trial: Trial,
    name: &[u8],
    numbers: &mut [i32; PLACEMENT_RUN],
    lands: &mut [u64; MOST_PLACED],
) -> Result<TrialCounts, LineFault>
    ensures { TrialAnswered panel (lent_of lent.entry) trial name.now (record { numbers = numbers.old; lands = lands.old }) (record { numbers = numbers.new; lands = lands.new }) result }
{
    let mut after = panel;
    let mut words = *lent.words;
    let mut columns: [u8; ENTRY_REACH] = [0; ENTRY_REACH];
    let mut rows: [u8; ENTRY_REACH] = [0; ENTRY_REACH];
    let columnbytes = copy_reached(lent.columnstore, &mut columns);
    let rowbytes = copy_reached(lent.rowstore, &mut rows);
    if let Err(fault) = enter_in_place(
        &mut after,
        &mut words,
        &mut columns[..columnbytes],
        &mut rows[..rowbytes],
        trial.axis,
        trial.line,
        name,
    ) {
        return Err(LineFault { fault, line: 0 });
    }
    let copy = LentPanel {
        words: &words,
        bytes: lent.bytes,
        columnstore: &columns[..columnbytes],
        rowstore: &rows[..rowbytes],
    };
    answer_panel(after.grid, copy, trial.packing, numbers, lands)
}

// Trying a call after a sheet and any entry calls answers what the run with that call answers: a law alone, the contract of a function that
// does nothing.
pub fn tried_as_run()
    ensures { TriedAsRun }
{}
