// What a sheet says, line by line, which sheets are refused, and what the state and the tables of an accepted one hold.

#![tactic(auto)]

ghost use Rattle.std.specs.Prelude.{◌≡◌};
ghost use Rattle.coordinates.specs.Refusals.{number_of};
ghost use Rattle.sheet_rules.specs.Answers.{refused_with};

use coordinates::Fault;
use panel_tables::Grid;

// The most bytes of a sheet.
pub const SHEET_BYTES: usize = 32768;

// Two areas of a sheet that share a cell, numbered from 1, and the line of the later one.
#[derive(Clone, Copy, Debug, PartialEq, Eq)]
pub struct Overlap {
    pub earlier: u32,
    pub later: u32,
    pub line: u32,
}

// A fault and the line of the sheet that has it.
#[derive(Clone, Copy, Debug, PartialEq, Eq)]
pub struct LineFault {
    pub fault: Fault,
    pub line: u32,
}

// Why a sheet is refused: two of its areas share a cell, a line has another fault, or the sheet as a whole has one.
#[derive(Clone, Copy, Debug, PartialEq, Eq)]
pub enum SheetFault {
    Overlap(Overlap),
    Line(LineFault),
    Whole(Fault),
}

impl From<SheetFault> for LineFault {
    ghost from_gives = { λ fault told. record { number = number_of told.fault; line = told.line } ≡ (refused_with fault).refusal };

    // The fault that a refused sheet is told by, with its line: that of the later area where two share a cell, 0 for the sheet as a whole.
    fn from(fault: SheetFault) -> LineFault {
        match fault {
            SheetFault::Overlap(pair) => LineFault {
                fault: Fault::Overlap,
                line: pair.line,
            },
            SheetFault::Line(told) => told,
            SheetFault::Whole(fault) => LineFault { fault, line: 0 },
        }
    }
}

// A sheet for display: what answers are read from, and the first two areas that share a cell; nothing that an edit takes.
#[derive(Clone, Copy, Debug, PartialEq, Eq)]
pub struct Display {
    pub grid: Grid,
    pub overlap: Option<Overlap>,
}
