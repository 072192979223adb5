// What reading a sheet answers, as numbers.
ghost use Rattle.std.specs.Prelude.{◌≡◌, Ok};
ghost use Rattle.sheet_rules.specs.Answers.{answered_display, answered_sheet, refused_with};
ghost use Rattle.library_numbers.specs.Answers.{display_answer, sheet_answer};

use crate::{DisplayAnswer, SheetAnswer};
use panel_tables::Panel;
use sheet_rules::{Display, LineFault, SheetFault};

impl From<SheetFault> for SheetAnswer {
    ghost from_gives = { λ fault answer. answer ≡ sheet_answer (refused_with fault) };

    // A refusal: its number and its line, and zeros but for the pair of an overlap.
    fn from(fault: SheetFault) -> SheetAnswer {
        let told = LineFault::from(fault);
        let refused = SheetAnswer {
            number: u32::from(told.fault),
            line: told.line,
            ..SheetAnswer::default()
        };
        match fault {
            SheetFault::Overlap(pair) => SheetAnswer {
                earlier: pair.earlier,
                later: pair.later,
                ..refused
            },
            SheetFault::Line(_) | SheetFault::Whole(_) => refused,
        }
    }
}

impl From<Result<Panel, SheetFault>> for SheetAnswer {
    ghost from_gives = { λ read answer. answer ≡ sheet_answer (answered_sheet read) };

    // The answer as numbers, for programs in C.
    fn from(read: Result<Panel, SheetFault>) -> SheetAnswer {
        match read {
            Ok(panel) => SheetAnswer {
                panel,
                ..SheetAnswer::default()
            },
            Err(fault) => SheetAnswer::from(fault),
        }
    }
}

impl From<Display> for DisplayAnswer {
    ghost from_gives = { λ display answer. answer ≡ display_answer (answered_display (Ok display)) };

    // What answers are read from of a sheet, as numbers.
    fn from(display: Display) -> DisplayAnswer {
        let (earlier, later) = match display.overlap {
            Some(pair) => (pair.earlier, pair.later),
            None => (0, 0),
        };
        DisplayAnswer {
            earlier,
            later,
            grid: display.grid,
            ..DisplayAnswer::default()
        }
    }
}

impl From<Result<Display, SheetFault>> for DisplayAnswer {
    ghost from_gives = { λ read answer. answer ≡ display_answer (answered_display read) };

    // The answer as numbers, for programs in C.
    fn from(read: Result<Display, SheetFault>) -> DisplayAnswer {
        match read {
            Ok(display) => DisplayAnswer::from(display),
            Err(fault) => {
                let refused = SheetAnswer::from(fault);
                DisplayAnswer {
                    number: refused.number,
                    line: refused.line,
                    earlier: refused.earlier,
                    later: refused.later,
                    grid: refused.panel.grid,
                }
            }
        }
    }
}
