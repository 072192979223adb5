// Answers and records as numbers.
ghost use Rattle.std.specs.Prelude.{◌≡◌, Ok};
ghost use Rattle.panel_rules.specs.Placing.{answered_placement};
ghost use Rattle.panel_tables.specs.Placements.{axis_mark};
ghost use Rattle.library_numbers.specs.Answers.{answered_count_numbers, answered_name, answered_size, placement_numbers};

use crate::{CountAnswer, NameAnswer, PlacementNumbers, SizeAnswer};
use axis_tables::AxisSize;
use coordinates::{Axis, Fault};
use name_resolver::ResolvedPlacement;
use panel_rules::PlacedLine;

// What the number of its axis has more of a placement that is a cell's half.
const CELL_HALF: u32 = 2;

// The number of an axis, and so much more for a cell's half.
fn axis_mark(axis: Axis, cell: bool) -> u32
    ensures { result ≡ axis_mark axis cell }
{
    u32::from(axis) + if cell { CELL_HALF } else { 0 }
}

impl From<Result<u64, Fault>> for CountAnswer {
    ghost from_gives = { λ counted answer. answer ≡ answered_count_numbers counted };

    // The answer as numbers, for programs in C.
    fn from(counted: Result<u64, Fault>) -> CountAnswer {
        match counted {
            Ok(count) => CountAnswer { number: 0, count },
            Err(fault) => CountAnswer {
                number: u32::from(fault),
                ..CountAnswer::default()
            },
        }
    }
}

impl From<Result<AxisSize, Fault>> for SizeAnswer {
    ghost from_gives = { λ size answer. answer ≡ answered_size size };

    // The size, or the number of the fault and zeros.
    fn from(size: Result<AxisSize, Fault>) -> SizeAnswer {
        match size {
            Ok(size) => SizeAnswer {
                number: 0,
                repetitions: size.repetitions,
                explicit: size.explicit,
            },
            Err(fault) => SizeAnswer {
                number: u32::from(fault),
                ..SizeAnswer::default()
            },
        }
    }
}

impl From<Result<NameAnswer, Fault>> for NameAnswer {
    ghost from_gives = { λ found answer. answer ≡ answered_name found };

    // Where the name lies, or the number of the fault and zeros.
    fn from(found: Result<NameAnswer, Fault>) -> NameAnswer {
        match found {
            Ok(part) => part,
            Err(fault) => NameAnswer {
                number: u32::from(fault),
                ..NameAnswer::default()
            },
        }
    }
}

impl From<PlacedLine> for PlacementNumbers {
    ghost from_gives = { λ placed numbers. numbers ≡ placement_numbers (answered_placement (Ok placed)) };

    // A resolved placement.
    #[tactic(auto, unfolding(crate::specs::Answers::placement_numbers))]
    fn from(answer: PlacedLine) -> PlacementNumbers {
        let ResolvedPlacement { line, held } = answer.placed;
        PlacementNumbers {
            number: 0,
            axis: axis_mark(answer.axis, answer.cell),
            startkind: line.start.kind(),
            startnumber: line.start.number(),
            endkind: line.end.kind(),
            endnumber: line.end.number(),
            startheld: u32::from(held.start),
            endheld: u32::from(held.end),
        }
    }
}

impl From<Result<PlacedLine, Fault>> for PlacementNumbers {
    ghost from_gives = { λ answer numbers. numbers ≡ placement_numbers (answered_placement answer) };

    // The placement, or the number of the fault and zeros.
    #[tactic(auto, unfolding(crate::specs::Answers::placement_numbers))]
    fn from(answer: Result<PlacedLine, Fault>) -> PlacementNumbers {
        match answer {
            Ok(placed) => PlacementNumbers::from(placed),
            Err(fault) => PlacementNumbers {
                number: u32::from(fault),
                ..PlacementNumbers::default()
            },
        }
    }
}
