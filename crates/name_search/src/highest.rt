// The highest line that any entry or area edge has: no line past it bears a name.
ghost use Rattle.std.specs.Prelude.{◌≡◌};
ghost use Rattle.name_lines.specs.HighestLine.{higher_edge, highest_entry, highest_line};

use crate::areas::edge_in;
use coordinates::Axis;
use name_entries::NameEntry;
use name_lines::GridAreaEnd;

// The highest number of a line that an entry has, 0 where there is none.
fn highest_entry(entries: &[u64]) -> u32
    ensures { result ≡ highest_entry 0 entries.now }
{
    entries
        .iter()
        .fold(0, |number, word| number.max(NameEntry::from(*word).line))
}

// A number, or that of an area's edge in an axis where it is higher.
fn higher_edge(axis: Axis, number: u32, word: u64) -> u32
    ensures { result ≡ higher_edge axis number word }
{
    number
        .max(edge_in(axis, GridAreaEnd::Start, word))
        .max(edge_in(axis, GridAreaEnd::End, word))
}

// The highest number of a line that an entry or an area's edge has in an axis, 0 where there is none.
pub(crate) fn highest_line(axis: Axis, entries: &[u64], edges: &[u64]) -> u32
    ensures { result ≡ highest_line axis entries.now edges.now }
{
    let number = highest_entry(entries);
    edges
        .iter()
        .fold(number, |number, word| higher_edge(axis, number, *word))
}
