// The answer to a sheet as the panel program prints it: columns, rows, placements, then the cells, or why it is refused.

#![tactic(auto)]

ghost use Rattle.std.specs.Prelude.{◌≡◌};
ghost use Rattle.sheet_rules.specs.Answers.{refused_with};
ghost use Rattle.panel_answer.specs.Listed.{told_refusal};

mod axis;
pub mod begin;
pub mod fill;
pub mod line;
mod place;

use coordinates::Axis;
use panel_tables::Grid;
use sheet_rules::{LineFault, SheetFault};
use track_rules::TrackWalk;

// A refusal as it is printed: any number and any line.
#[derive(Clone, Copy, Debug, PartialEq, Eq)]
pub struct LineRefusal {
    pub number: u32,
    pub line: u32,
}

impl From<SheetFault> for LineRefusal {
    ghost from_gives = { λ fault refusal. told_refusal refusal ≡ (refused_with fault).refusal };

    // The refusal of a sheet: the number of its fault in the table, and its line, 0 for the sheet as a whole.
    fn from(fault: SheetFault) -> LineRefusal {
        let told = LineFault::from(fault);
        LineRefusal {
            number: u32::from(told.fault),
            line: told.line,
        }
    }
}

// A line of an answer: a refusal; the size of an axis; a record of it, by its index and what is carried to it; a placement, by its
// index, without text where it is a cell's half; a cell, by its index.
#[derive(Clone, Copy, Debug, PartialEq)]
pub enum AnswerLine {
    Refused(LineRefusal),
    Size(Axis),
    Record(Axis, u32, TrackWalk),
    Place(u32),
    Cell(u32),
}

// A sheet that was read, and its cells placed: what answers, zeros where it is refused, and the first line of its answer.
#[derive(Clone, Copy, Debug, PartialEq)]
pub struct Begun {
    pub grid: Grid,
    pub first: AnswerLine,
}

// What was written of an answer: how many bytes, and the line that is next where one is left.
#[derive(Clone, Copy, Debug, PartialEq)]
pub struct Filled {
    pub count: usize,
    pub next: Option<AnswerLine>,
}
