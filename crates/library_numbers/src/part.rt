// Where a name lies in the store of its axis.
ghost use Rattle.std.specs.Prelude.{◌≡◌};
ghost use Rattle.std.specs.Option.{unwrap_or};
ghost use Rattle.name_entries.specs.LineEntries.{no_entry};
ghost use Rattle.library_numbers.specs.Answers.{name_part};

use crate::NameAnswer;
use name_entries::NameEntry;

// The part of a store of so many bytes that holds an entry's name, cut where the store ends; an empty one where there is no entry.
pub fn name_part(bytes: usize, entry: Option<NameEntry>) -> NameAnswer
    ensures { result ≡ name_part bytes (unwrap_or entry no_entry) }
{
    let part = entry.unwrap_or_default().cut(bytes);
    NameAnswer {
        number: 0,
        offset: part.offset,
        length: part.length,
    }
}
