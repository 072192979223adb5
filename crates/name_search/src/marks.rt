// The lines of a window that have a name, marked. A line is marked or not, so it counts once.
ghost use Rattle.std.specs.Prelude.{eqb, ◌++◌, ◌≡◌};
ghost use Rattle.name_rules.specs.Rule.{any, written?};
ghost use Rattle.name_lines.specs.Marks.{lies_in};
ghost use Rattle.name_lines.specs.Suffixes.{tail_of};
ghost use Rattle.name_entries.specs.Entries.{entries_of, entry_of, named_entry};
ghost use Rattle.name_search.specs.Marked.{Marked, no_marks};
ghost use Rattle.name_search.specs.Scans.{window_length};

use crate::window::{WINDOW, Window};
use name_entries::{NameEntry, Names};
use name_lines::JoinedName;
use name_lines::suffix::has_name;

// A flag for each line of a window, from its first on.
#[derive(Drop)]
pub(crate) struct Marks {
    pub window: Window,
    pub marked: [bool; WINDOW as usize],
}

impl Marks {
    // No line of a window is marked.
    pub(crate) fn new(window: Window) -> Marks
        ensures { result ≡ no_marks window }
    {
        Marks {
            window,
            marked: [false; WINDOW as usize],
        }
    }

    // Whether the line of a number from 1 has a flag.
    pub(crate) fn holds(&self, number: u32) -> bool
        ensures { result ≡ lies_in self.now.window.low window_length number }
    {
        self.window.low < number && number - self.window.low - 1 < WINDOW
    }

    // Mark the line of a number from 1. A number whose line has no flag marks nothing.
    pub(crate) fn mark_line(&mut self, number: u32)
        ensures { Marked self.old self.new (λ n. eqb number n) }
    {
        if self.holds(number) {
            self.marked[(number - self.window.low - 1) as usize] = true;
        }
    }

    // Mark the line of an entry that has the name. A name whose line lies outside is not looked at.
    fn mark_entry(&mut self, store: &[u8], word: u64, name: JoinedName)
        ensures { Marked self.old self.new (λ n. written? (name.entry.stem.now ++ tail_of name.entry.edge) n (named_entry store.now (entry_of word))) }
    {
        let entry = NameEntry::from(word);
        if self.holds(entry.line) && has_name(store, word, name) {
            self.mark_line(entry.line);
        }
    }

    // Mark the lines of the entries that have the name.
    pub(crate) fn mark_entries(&mut self, names: Names, name: JoinedName)
        ensures { Marked self.old self.new (λ n. any (written? (name.entry.stem.now ++ tail_of name.entry.edge) n) (entries_of names.entry.entries.now names.entry.store.now)) }
    {
        for word in names.entries {
            self.mark_entry(names.store, *word, name);
        }
    }
}
