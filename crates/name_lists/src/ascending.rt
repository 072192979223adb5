// The lists of all explicit lines from entries whose lines never fall: the entries of a line are one part of them.
ghost use Rattle.std.specs.Prelude.{◌≡◌, true};
ghost use Rattle.name_lists.specs.Ascending.{ascends, count_up_to};
ghost use Rattle.name_lists.specs.Lists.{lists, Written};

use crate::explicit::ExplicitNames;
use crate::line::write_line;
use name_entries::{MOST_ENTRIES, NameEntry, Names};

// Whether the lines of the entries never fall.
pub(crate) fn are_ascending(entries: &[u64]) -> bool
    ensures { result ≡ ascends entries.now }
{
    entries.is_sorted_by_key(|word| NameEntry::from(*word).line)
}

// How many entries there are before the first whose line is above `line`.
#[tactic(auto, using(crate::proofs::Further::count_prefix))]
fn entries_up_to(entries: &[u64], line: u32) -> usize
    ensures { result ≡ count_up_to line entries.now }
{
    entries
        .iter()
        .take_while(|word| NameEntry::from(**word).line <= line)
        .count()
}

impl ExplicitNames<'_> {
    // Writes the lists: the quickest way, for entries that ascend.
    pub(crate) fn write_ascending(self, words: &mut [u64; MOST_ENTRIES]) -> usize
        requires { ascends self.names.entries.now ≡ true }
        ensures { Written words.old (lists self.entry.explicit self.entry.names.entries.now self.entry.names.store.now) words.new result }
    {
        let mut count: usize = 0;
        let mut at = entries_up_to(self.names.entries, 0);
        for line in 1..self.explicit + 2 {
            // No line after the last entry has a name.
            if at == self.names.entries.len() {
                return count;
            }
            let end = at + entries_up_to(&self.names.entries[at..], line);
            let own = Names {
                entries: &self.names.entries[at..end],
                ..self.names
            };
            count += write_line(own, line, &mut words[count..]);
            at = end;
        }
        count
    }
}
