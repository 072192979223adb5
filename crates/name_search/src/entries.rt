// The nearest line of a name among the entries.
ghost use Rattle.name_rules.specs.Rule.{any, written?};
ghost use Rattle.name_lines.specs.Suffixes.{tail_of};
ghost use Rattle.name_entries.specs.Entries.{entries_of, entry_of, named_entry};
ghost use Rattle.name_search.specs.Nearest.{Nearest, number_at};
ghost use Rattle.std.specs.Prelude.{◌++◌};

use crate::Sought;
use name_entries::{NameEntry, Names};
use name_lines::JoinedName;
use name_lines::suffix::has_name;

// The distance of an entry's line where it is below `best` and the entry has the name, else `best`. A name whose line is not nearer is not looked at.
fn nearest_entry(sought: Sought, word: u64, store: &[u8], name: JoinedName, best: u32) -> u32
    ensures { Nearest (λ d. written? (name.entry.stem.now ++ tail_of name.entry.edge) (number_at sought.nth.way sought.nth.from d) (named_entry store.now (entry_of word))) best result }
{
    let near = sought.nearer(NameEntry::from(word).line, best);
    if near < best && has_name(store, word, name) {
        return near;
    }
    best
}

// The least distance below `limit` of a line of an entry that has the name, `limit` where there is none.
pub(crate) fn nearest_entries(sought: Sought, names: Names, name: JoinedName, limit: u32) -> u32
    ensures { Nearest (λ d. any (written? (name.entry.stem.now ++ tail_of name.entry.edge) (number_at sought.nth.way sought.nth.from d)) (entries_of names.entry.entries.now names.entry.store.now)) limit result }
{
    let mut best = limit;
    for word in names.entries {
        best = nearest_entry(sought, *word, names.store, name, best);
    }
    best
}
