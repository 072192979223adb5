// Sizes of a lent table as the words that are handed out.
ghost use Rattle.std.specs.Prelude.{◌≡◌, get_or};
ghost use Rattle.sizing.specs.Words.{sizing_of};
ghost use Rattle.library_numbers.specs.Records.{size_word};

use coordinates::word_at;
use sizing::Sizing;
use sizing::definite::LARGEST_LENGTH;
use sizing::range::word_in_range;

// The word of the size that a word gives: one in range is its own.
fn kept_word(word: u64) -> u64
    ensures { result ≡ size_word (sizing_of word) }
{
    if word <= LARGEST_LENGTH {
        return word;
    }
    if word_in_range(word) {
        return word;
    }
    u64::from(Sizing::from(word))
}

// The word of the size at a place of a table.
pub(crate) fn size_at(table: &[u64], place: u64) -> u64
    ensures { result ≡ size_word (sizing_of (get_or table.now place 0)) }
{
    kept_word(word_at(table, place as usize))
}
