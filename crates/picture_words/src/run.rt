// A run of equal words.
ghost use Rattle.std.specs.Prelude.{◌≡◌};
ghost use Rattle.picture_words.specs.Runs.{run_at};

use crate::word::word_at;
use text::TAB;

// How many words a run has, and where the word after it starts: past the end where there is none.
#[derive(Clone, Copy, Debug, PartialEq, Eq)]
pub struct WordRun {
    pub count: usize,
    pub next: usize,
}

// The run of words equal to the one that starts at a place; of no word past the end.
pub fn run_at(line: &[u8], at: usize) -> WordRun
    ensures { result ≡ run_at line.now at }
{
    let Some(rest) = line.get(at..) else {
        return WordRun { count: 0, next: at };
    };
    let word = word_at(line, at);
    let count = rest
        .split(|b| *b == TAB)
        .take_while(|own| *own == word)
        .count();
    WordRun {
        count,
        next: at + count * (word.len() + 1),
    }
}
