// Layer 4, the n-th line that bears a name, on from a line or back from one (`nth_line_forwards`, `nth_line_backwards`).

#![tactic(auto)]

ghost use Rattle.name_lines.specs.Marks.{seek_of, start_of};
ghost use Rattle.name_search.specs.Scans.{part_of};
ghost use Rattle.name_search.specs.Sought.{line_sought, marks_in};
ghost use Rattle.std.specs.Prelude.{◌≡◌};

mod areas;
mod by_distance;
mod by_marks;
mod distance;
mod entries;
mod highest;
mod marks;
mod nearest;
mod seek;
mod window;

use coordinates::Axis;
use name_entries::{LAST_LINE, Names};
use name_lines::{JoinedName, NthLine, Way};

// The drawn areas of a panel: a word of edges and a word of where its name lies for each, and the bytes of the names.
#[derive(Clone, Copy)]
pub struct DrawnAreas<'a> {
    pub edges: &'a [u64],
    pub names: &'a [u64],
    pub store: &'a [u8],
}

// What is sought: the n-th line in an axis.
#[derive(Clone, Copy, Debug, PartialEq, Eq)]
pub struct Sought {
    pub axis: Axis,
    pub nth: NthLine,
}

// A search: what is sought, of which name, and the name entries and the drawn areas among whose lines it is sought.
#[derive(Clone, Copy)]
pub struct Search<'a> {
    pub sought: Sought,
    pub name: JoinedName<'a>,
    pub names: Names<'a>,
    pub areas: DrawnAreas<'a>,
}

impl Sought {
    // The same name from another line on, or before it, after so many lines of it.
    fn part(self, from: u32, over: u32) -> Sought
        ensures { result ≡ part_of self from over }
    {
        let nth = NthLine {
            from,
            over,
            ..self.nth
        };
        Sought { nth, ..self }
    }
}

// Up to so many entries, and so many areas, passes over them take less time than marks.
const FEW: usize = 16;

// Where a search begins: one back never past the last line that can have a name.
fn start_of(way: Way, from: u32) -> u32
    ensures { result ≡ start_of way from }
{
    match way {
        Way::Up => from,
        Way::Down => from.min(LAST_LINE),
    }
}

impl Search<'_> {
    // The line that is sought among the lines of the entries and the edges of the drawn areas, as far as line 20,000, or how many lines were still to be passed over.
    #[tactic(auto, unfolding(crate::specs::Sought::line_sought))]
    pub fn nth_line(self) -> Result<u32, u32>
        ensures { seek_of result ≡ line_sought self.entry.sought.nth (marks_in self.entry) }
    {
        let sought = self.sought;
        let held = Search {
            sought: sought.part(start_of(sought.nth.way, sought.nth.from), sought.nth.over),
            ..self
        };
        if self.names.entries.len() <= FEW && self.areas.edges.len() <= FEW {
            return held.nth_by_distance();
        }
        held.nth_by_marks()
    }
}
