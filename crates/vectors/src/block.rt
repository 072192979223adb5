// One block of a list: a sheet, read or only displayed, entry calls, questions, and the expected answers.
use crate::calls::seen_calls;
use crate::expected::Expected;
use crate::input::{Lines, Reader, Word, head_of};
use crate::panel::seen_panel;
use crate::questions::seen_questions;
use crate::tables::{Shown, StoreLengths, Tables};
use panel_tables::{Panel, Room};
use sheet_rules::{LineFault, Overlap, SheetFault};

// The parts of a block: the lengths of the stores where they are given, whether the sheet is only displayed, the sheet, the calls, the
// questions where there are any, whether the expected text is cut, and that text.
#[derive(Clone, Copy)]
pub struct Block<'a> {
    pub lengths: Option<StoreLengths>,
    pub displays: bool,
    pub sheet: &'a [u8],
    pub calls: Lines<'a>,
    pub questions: Option<Lines<'a>>,
    pub cut: bool,
    pub expected: &'a [u8],
}

// The lengths of the stores that a line gives.
fn lengths_of(line: &[u8]) -> StoreLengths {
    StoreLengths::written(text::part(line, b' ', 1), text::part(line, b' ', 2))
}

// The answers of what was read or displayed, or the answers to questions, and the areas of a display that share a cell.
fn seen_grid<'a>(
    expected: Expected<'a>,
    block: Block,
    shown: Shown,
    overlap: Option<Overlap>,
) -> Expected<'a> {
    match block.questions {
        Some(questions) => seen_questions(expected, questions, shown).overlap(overlap),
        None => seen_panel(expected, block.cut, shown, overlap),
    }
}

// A sheet that is refused.
pub fn seen_fault(expected: Expected, fault: SheetFault) -> Expected {
    let told = LineFault::from(fault);
    let refused = expected.refused(told.fault, told.line);
    match fault {
        SheetFault::Overlap(pair) => refused.overlap(Some(pair)),
        _ => refused,
    }
}

impl<'a> Block<'a> {
    // The block that comes next, after its `case` line.
    pub fn read(input: &mut Reader<'a>) -> Block<'a> {
        let first = input.line();
        let stores = head_of(first);
        let (lengths, head) = match stores.word {
            Word::Stores => (Some(lengths_of(first)), input.head()),
            _ => (None, stores),
        };
        let sheet = input.bytes(head.number as usize);
        let calls = input.counted();
        let ask = input.head();
        let (questions, text) = match ask.word {
            Word::Ask => (Some(input.lines(ask.number)), input.head()),
            _ => (None, ask),
        };
        Block {
            lengths,
            displays: head.word == Word::Display,
            sheet,
            calls,
            questions,
            cut: text.word == Word::Cut,
            expected: input.bytes(text.number as usize),
        }
    }

    // The sheet call and all answers.
    fn seen_sheet(self, tables: &mut Tables) -> Expected<'a> {
        let expected = Expected::new(self.expected);
        match tables.read(self.sheet, self.lengths) {
            Ok(panel) => {
                let called = seen_calls(expected, self, panel, tables);
                seen_grid(called.seen, self, tables.shown(called.panel), None)
            }
            Err(fault) => seen_fault(expected, fault),
        }
    }

    // The display call and all answers.
    fn seen_display(self, tables: &mut Tables) -> Expected<'a> {
        let expected = Expected::new(self.expected);
        match tables.display(self.sheet, self.lengths) {
            Ok(display) => {
                let shown = tables.shown(Panel {
                    grid: display.grid,
                    room: Room::default(),
                });
                seen_grid(expected, self, shown, display.overlap)
            }
            Err(fault) => seen_fault(expected, fault),
        }
    }

    // Whether its answers are the expected ones.
    pub fn is_same(self, tables: &mut Tables) -> bool {
        if self.displays {
            return self.seen_display(tables).is_over();
        }
        self.seen_sheet(tables).is_over()
    }
}
