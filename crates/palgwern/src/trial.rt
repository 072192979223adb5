// Trying a name first, for programs in C and Rust.
ghost use Rattle.std.specs.Prelude.{◌≡◌};
ghost use Rattle.panel_hits.specs.Settled.{lent_in};
ghost use Rattle.panel_trial.specs.Trial.{AnswerRuns};
ghost use Rattle.palgwern.specs.Trial.{trial_in, trial_numbers, NameTried};

use crate::axis_in;
use crate::cells::packing_in;
use cell_placing::MOST_PLACED;
use coordinates::limit::PLACEMENT_RUN;
use library_numbers::axis::entry_in_no_axis;
use panel_tables::region::{PANEL_BYTES, PANEL_WORDS};
use panel_tables::{LentPanel, Panel};
use panel_trial::{Trial, TrialCounts, try_name};
use sheet_rules::LineFault;

// What is tried beside the bytes of the name: an axis by its number, a line, and a packing by its number.
#[repr(C)]
#[derive(Clone, Copy, Debug, PartialEq, Eq, Default)]
pub struct NameTrial {
    pub axis: u32,
    pub line: u32,
    pub packing: u32,
}

// How many placements are settled and how many cells land, or a refusal with its line and zeros.
#[repr(C)]
#[derive(Clone, Copy, Debug, PartialEq, Eq, Default)]
pub struct NameTrialAnswer {
    pub number: u32,
    pub line: u32,
    pub placements: u32,
    pub cells: u32,
}

impl From<Result<TrialCounts, LineFault>> for NameTrialAnswer {
    ghost from_gives = { λ tried answer. answer ≡ trial_numbers tried };

    // The answer as numbers, for programs in C.
    fn from(tried: Result<TrialCounts, LineFault>) -> NameTrialAnswer {
        match tried {
            Ok(counts) => NameTrialAnswer {
                number: 0,
                line: 0,
                placements: counts.placements,
                cells: counts.cells,
            },
            Err(told) => NameTrialAnswer {
                number: u32::from(told.fault),
                line: told.line,
                placements: 0,
                cells: 0,
            },
        }
    }
}

// What is tried by numbers, where they are those of an axis and of a packing.
fn trial_in(trial: NameTrial) -> Option<Trial>
    ensures { result ≡ trial_in trial }
{
    let axis = axis_in(trial.axis).ok()?;
    let packing = packing_in(trial.packing)?;
    Some(Trial {
        axis,
        line: trial.line,
        packing,
    })
}

// All settled placements and where the cells land, as they would be with one more line and name entered in an axis.
#[unsafe(no_mangle)]
pub extern "C" fn palgwern_try_name(
    panel: Panel,
    words: &[u64; PANEL_WORDS],
    bytes: &[u8; PANEL_BYTES],
    columnstore: &[u8],
    rowstore: &[u8],
    trial: NameTrial,
    name: &[u8],
    numbers: &mut [i32; PLACEMENT_RUN],
    lands: &mut [u64; MOST_PLACED],
) -> NameTrialAnswer
    ensures { NameTried panel (lent_in words.now bytes.now columnstore.now rowstore.now) trial name.now (record { numbers = numbers.old; lands = lands.old }) (record { numbers = numbers.new; lands = lands.new }) result }
{
    let Some(tried) = trial_in(trial) else {
        return NameTrialAnswer::from(Err(LineFault {
            fault: entry_in_no_axis(name),
            line: 0,
        }));
    };
    let lent = LentPanel {
        words,
        bytes,
        columnstore,
        rowstore,
    };
    NameTrialAnswer::from(try_name(panel, lent, tried, name, numbers, lands))
}
