// The names of the explicit lines of an axis, each shown as a part of the axis's store.
ghost use Rattle.std.specs.Prelude.{◌≡◌, ◌≤◌, length, take, drop};
ghost use Rattle.std.specs.List.{slice_get};
ghost use Rattle.name_rules.specs.Rule.{any, written?};
ghost use Rattle.name_entries.specs.Entries.{entry_of, named_entry, entries_of};
ghost use Rattle.name_entries.specs.LineNames.{shows, line_count};
ghost use Rattle.name_entries.specs.LineEntries.{line_entries_of, explicit_line_entries};

use crate::entry::name_in;
use crate::{NameEntry, Names};

// How many lists of line names an axis has, by its entries and its explicit tracks.
pub fn line_count(count: u32, explicit: u32) -> u64
    ensures { result ≡ line_count count explicit }
{
    if count == 0 {
        return 0;
    }
    u64::from(explicit) + 1
}

impl Names<'_> {
    // Whether an entry is on the line and has the name.
    pub fn is_written(self, entry: NameEntry, line: u32, name: &[u8]) -> bool
        ensures { result ≡ written? name.now line (named_entry self.entry.store.now entry) }
    {
        entry.line == line && name_in(self.store, entry) == name
    }

    // Whether one of the entries is on the line and has the name.
    #[tactic(auto, using(crate::proofs::Showing::any_words))]
    fn has_written(self, line: u32, name: &[u8]) -> bool
        ensures { result ≡ any (written? name.now line) (entries_of self.entry.entries.now self.entry.store.now) }
    {
        self.entries
            .iter()
            .any(|word| self.is_written(NameEntry::from(*word), line, name))
    }

    // Whether the entry at a place shows its name on the line: it is there, and no entry before has the name there. Past the end all entries are before.
    #[inline(always)]
    #[tactic(auto, using(crate::proofs::Showing::all_before))]
    pub fn is_shown(self, place: usize, line: u32, entry: NameEntry) -> bool
        ensures { result ≡ shows line (entries_of (take place self.entry.entries.now) self.entry.store.now) (named_entry self.entry.store.now entry) }
    {
        if entry.line != line {
            return false;
        }
        let before = Names {
            entries: &self.entries[..place.min(self.entries.len())],
            ..self
        };
        !before.has_written(line, name_in(self.store, entry))
    }

    // The entry at that place, from 0, among those that show a name on the line.
    fn shown_entry(self, line: u32, place: u32) -> Option<NameEntry>
        ensures { result ≡ slice_get (line_entries_of self.entry.entries.now self.entry.store.now line) place }
    {
        self.entries
            .iter()
            .enumerate()
            .filter(|at| self.is_shown(at.0, line, NameEntry::from(*at.1)))
            .map(|at| NameEntry::from(*at.1))
            .nth(place as usize)
    }

    // The entry that shows a name of an explicit line, by its place from 0; none where that line and place hold none.
    #[tactic(auto, unfolding(crate::specs::LineEntries::explicit_line_entries))]
    pub fn line_entry(self, explicit: u32, line: u32, place: u32) -> Option<NameEntry>
        ensures { result ≡ slice_get (explicit_line_entries explicit self.entry.entries.now self.entry.store.now line) place }
    {
        if line < 1 || explicit < line - 1 {
            return None;
        }
        self.shown_entry(line, place)
    }
}
