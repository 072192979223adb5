// The names of one line, each as a word.
ghost use Rattle.std.specs.Prelude.{◌≡◌, ◌≤◌, length};
ghost use Rattle.name_entries.specs.Entries.{entry_of};
ghost use Rattle.name_lists.specs.Lists.{part_word, line_words, Written};

use name_entries::{NameEntry, Names};

// The word of an entry's name: its line, and the part of the store that it is.
#[tactic(auto, unfolding(name_entries::specs::Entries::entry_of))]
fn part_word(store: &[u8], word: u64) -> u64
    ensures { result ≡ part_word store.now (entry_of word) }
{
    u64::from(NameEntry::from(word).cut(store.len()))
}

// Writes the names of a line to the front of the words, and answers how many these are.
pub(crate) fn write_line(names: Names, line: u32, words: &mut [u64]) -> usize
    requires { length (line_words names.entries.now names.store.now line) ≤ length words.old }
    ensures { Written words.old (line_words names.entry.entries.now names.entry.store.now line) words.new result }
{
    let mut count = 0;
    for (place, word) in names.entries.iter().enumerate() {
        if names.is_shown(place, line, NameEntry::from(*word)) {
            words[count] = part_word(names.store, *word);
            count += 1;
        }
    }
    count
}
