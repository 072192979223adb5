// The lines of a history, over bytes alone: each is a step's number, a tab, a text without a line feed, and a line feed.

#![tactic(auto)]

pub mod find;
pub mod write;

pub use find::{after_lines, find_line, one_line};
use text::Place;
pub use write::StepLine;

// Where the text of a line lies, and where the line after it starts.
#[derive(Clone, Copy, Debug, PartialEq, Eq)]
pub struct HistoryLine {
    pub text: Place,
    pub after: usize,
}
