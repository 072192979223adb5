// All words of a line: how many there are, and the first of their faults.
ghost use Rattle.std.specs.Prelude.{◌≡◌, length};
ghost use Rattle.coordinates.specs.Refusals.{refused_by};
ghost use Rattle.picture_words.specs.Words.{words_of};
ghost use Rattle.sheet_forms.specs.Fields.{words_fault, many_fault, row_fault};

use crate::word::check_word;
use coordinates::Fault;
use coordinates::line::MOST_TRACKS;
use sheet_forms::both;
use text::TAB;

// The most words of a row.
pub const MOST_WORDS: usize = MOST_TRACKS as usize;

// How many words a line has: one after each tab.
pub fn words_in(line: &[u8]) -> usize
    ensures { result ≡ length (words_of line.now) }
{
    line.iter().filter(|b| **b == TAB).count()
}

// Every word of a line is dots or a name; else the line has the fault of the first that is neither.
fn check_words(line: &[u8]) -> Result<(), Fault>
    ensures { refused_by result ≡ words_fault (words_of line.now) }
{
    for word in line.split(|b| *b == TAB).skip(1) {
        check_word(word)?;
    }
    Ok(())
}

// More words than a row may have are refused by 4.
fn check_count(words: usize) -> Result<(), Fault>
    ensures { refused_by result ≡ many_fault words }
{
    if MOST_WORDS < words {
        return Err(Fault::Count);
    }
    Ok(())
}

// A row by itself is refused by 2 for a word that is neither dots nor a name, by 4 for too many words.
#[tactic(auto, unfolding(sheet_forms::specs::Fields::row_fault))]
pub fn check_row(line: &[u8]) -> Result<(), Fault>
    ensures { refused_by result ≡ row_fault (words_of line.now) }
{
    both(check_words(line), check_count(words_in(line)))?;
    Ok(())
}
