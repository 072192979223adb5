// Entries as words. Any word gives one.
ghost use Rattle.std.specs.Prelude.{◌≡◌, ◌%◌, ◌^◌};
ghost use Rattle.name_entries.specs.Entries.{cut_at, entry_of, name_in, word_of};

use crate::NameEntry;
use coordinates::part_of;

impl From<u64> for NameEntry {
    ghost from_gives = { λ word entry. entry ≡ entry_of word };

    // An entry from its word.
    #[tactic(auto, unfolding(crate::specs::Entries::entry_of))]
    fn from(word: u64) -> NameEntry {
        NameEntry {
            line: (word % 0x1_0000) as u32,
            offset: (word / 0x1_0000 % 0x1_0000) as u32,
            length: (word / 0x1_0000_0000 % 0x100) as u32,
        }
    }
}

impl From<NameEntry> for u64 {
    ghost from_gives = { λ entry word. word ≡ word_of entry.line entry.offset entry.length % 2 ^ 64 };

    // The word of an entry. Parts that are too wide for it run into one another.
    fn from(entry: NameEntry) -> u64 {
        let place = u64::from(entry.line) + u64::from(entry.offset) * 0x1_0000;
        place.wrapping_add(u64::from(entry.length) * 0x1_0000_0000)
    }
}

impl NameEntry {
    // The same entry with its name cut where a store of so many bytes ends.
    pub fn cut(self, bytes: usize) -> NameEntry
        ensures { result ≡ cut_at bytes self }
    {
        let left = bytes.saturating_sub(self.offset as usize);
        NameEntry {
            line: self.line,
            offset: (self.offset as usize).min(bytes) as u32,
            length: (self.length as usize).min(left) as u32,
        }
    }
}

// The part of the store that holds an entry's name, cut where the store ends.
pub fn name_in(store: &[u8], entry: NameEntry) -> &[u8]
    ensures { result.now ≡ name_in store.now entry }
{
    part_of(store, entry.offset as usize, entry.length as usize)
}
