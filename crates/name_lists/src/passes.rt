// The lists of all explicit lines, each by a pass over all entries.
ghost use Rattle.name_lists.specs.Lists.{lists, Written};

use crate::explicit::ExplicitNames;
use crate::line::write_line;
use name_entries::MOST_ENTRIES;

impl ExplicitNames<'_> {
    // Writes the lists: the quicker way for few entries.
    pub(crate) fn write_by_passes(self, words: &mut [u64; MOST_ENTRIES]) -> usize
        ensures { Written words.old (lists self.entry.explicit self.entry.names.entries.now self.entry.names.store.now) words.new result }
    {
        let mut count: usize = 0;
        for line in 1..=self.explicit + 1 {
            count += write_line(self.names, line, &mut words[count..]);
        }
        count
    }
}
