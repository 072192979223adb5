// Whether entries list the lines of one name.
ghost use Rattle.std.specs.Prelude.{◌≡◌};
ghost use Rattle.name_rules.specs.Rule.{eq_bytes};
ghost use Rattle.name_entries.specs.Entries.{entry_of, name_in};
ghost use Rattle.name_groups.specs.Listed.{lists_next};

use name_entries::bytes::same_bytes;
use name_entries::entry::name_in;
use name_entries::{LAST_LINE, NameEntry};

// Whether two entries have the same name. Those of the same part of the store do.
fn same_name(store: &[u8], a: u64, b: u64) -> bool
    ensures { result ≡ eq_bytes (name_in store.now (entry_of a)) (name_in store.now (entry_of b)) }
{
    a / 0x1_0000 == b / 0x1_0000
        || same_bytes(
            name_in(store, NameEntry::from(a)),
            name_in(store, NameEntry::from(b)),
        )
}

// Whether an entry has the first one's name on a line after one.
pub(crate) fn lists_next(store: &[u8], first: u64, line: u32, word: u64) -> bool
    ensures { result ≡ lists_next store.now (name_in store.now (entry_of first)) line word }
{
    let entry = NameEntry::from(word);
    line < entry.line && entry.line <= LAST_LINE && same_name(store, word, first)
}
