// One word of a line: where it lies, and what it is.
ghost use Rattle.std.specs.Prelude.{◌≡◌, eqb};
ghost use Rattle.std.specs.List.{list_all};
ghost use Rattle.coordinates.specs.Refusals.{refused_by};
ghost use Rattle.picture_rules.specs.Picture.{is_dots};
ghost use Rattle.picture_words.specs.Words.{first_start, word_at};
ghost use Rattle.sheet_forms.specs.Fields.{word_fault};

use coordinates::Fault;
use sheet_forms::check_name;
use text::{TAB, part_end};

// An empty cell is a run of these.
pub const DOT: u8 = b'.';

// Where the first word starts: after the first field. Past the end of a line that has none.
#[tactic(auto, using(text::proofs::Laws::before_le))]
pub fn first_word(line: &[u8]) -> usize
    ensures { result ≡ first_start line.now }
{
    part_end(line, 0, TAB) + 1
}

// The word that starts at a place; empty past the end.
pub fn word_at(line: &[u8], at: usize) -> &[u8]
    ensures { result.now ≡ word_at line.now at }
{
    text::part(line.get(at..).unwrap_or(&[]), TAB, 0)
}

// Whether every byte is a dot.
fn all_dots(word: &[u8]) -> bool
    ensures { result ≡ list_all (λ b. eqb b 46) word.now }
{
    word.iter().all(|b| *b == DOT)
}

// Whether a word is one or more dots.
#[tactic(auto, using(crate::proofs::Dots::dots_all))]
pub fn is_dots(word: &[u8]) -> bool
    ensures { result ≡ is_dots word.now }
{
    !word.is_empty() && all_dots(word)
}

// A word is dots or a name; else it is refused by 2.
#[tactic(auto, unfolding(sheet_forms::specs::Fields::word_fault))]
pub fn check_word(word: &[u8]) -> Result<(), Fault>
    ensures { refused_by result ≡ word_fault word.now }
{
    if is_dots(word) {
        return Ok(());
    }
    check_name(word)
}
