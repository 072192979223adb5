// The words of a `row` line, which are its fields after the first: where they lie, runs of equal ones, how many there are, and the faults of such a line by itself.

#![tactic(auto)]

pub mod row;
pub mod run;
pub mod word;

pub use row::{check_row, words_in};
pub use run::{WordRun, run_at};
pub use word::{check_word, first_word, is_dots, word_at};
