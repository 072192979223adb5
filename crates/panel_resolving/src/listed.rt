// The n-th line of a name whose entries are listed, from either side.
ghost use Rattle.name_lines.specs.Marks.{seek_of, start_of, walk};
ghost use Rattle.name_lines.specs.Suffixes.{tail_of};
ghost use Rattle.panel_resolving.specs.Listing.{LinesAscend, first_named, on_line, up_to};
ghost use Rattle.std.specs.Prelude.{◌++◌, ◌≡◌};

use name_entries::NameEntry;
use name_lines::suffix::has_name;
use name_lines::{JoinedName, NthLine, Way};

// Whether there are entries, and the first has the name.
pub(crate) fn first_has_name(words: &[u64], store: &[u8], name: JoinedName) -> bool
    ensures { result ≡ first_named store.now words.now (name.entry.stem.now ++ tail_of name.entry.edge) }
{
    !words.is_empty() && has_name(store, words[0], name)
}

// How many entries have a line of at most `number`. The lines ascend.
fn lines_up_to(words: &[u64], number: u32) -> usize
    requires { LinesAscend words.now }
    ensures { result ≡ up_to number words.now }
{
    words.partition_point(|word| NameEntry::from(*word).line <= number)
}

// The n-th of the lines that the entries list.
pub(crate) fn nth_listed(words: &[u64], nth: NthLine) -> Result<u32, u32>
    requires { LinesAscend words.now }
    ensures { seek_of result ≡ walk nth.way (on_line words.now) (start_of nth.way nth.from) nth.over }
{
    let below = lines_up_to(words, nth.from);
    let passed = nth.over as usize;
    match nth.way {
        Way::Up => {
            let rest = words.len() - below;
            if passed < rest {
                let entry = NameEntry::from(words[below + passed]);
                return Ok(entry.line - 1);
            }
            Err(nth.over - rest as u32)
        }
        Way::Down => {
            if passed < below {
                let entry = NameEntry::from(words[below - 1 - passed]);
                return Ok(entry.line - 1);
            }
            Err(nth.over - below as u32)
        }
    }
}
