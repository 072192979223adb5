// The drawn areas of an axis: the nearest of their edges that have a name, and these edges marked.
ghost use Rattle.std.specs.Prelude.{get_or, ◌≡◌};
ghost use Rattle.name_rules.specs.Rule.{any, eq_bytes};
ghost use Rattle.name_entries.specs.Entries.{entry_of, name_in};
ghost use Rattle.name_lines.specs.Areas.{area_of, areas_of, edge_in, edged?, side_of};
ghost use Rattle.name_search.specs.Marked.{Marked};
ghost use Rattle.name_search.specs.Nearest.{Nearest, number_at};

use crate::marks::Marks;
use crate::{DrawnAreas, Sought};
use coordinates::{Axis, word_at};
use name_entries::NameEntry;
use name_entries::bytes::same_bytes;
use name_entries::entry::name_in;
use name_lines::GridAreaEnd;

// The number of an area's edge line in an axis.
pub(crate) fn edge_in(axis: Axis, end: GridAreaEnd, word: u64) -> u32
    ensures { result ≡ edge_in axis (side_of end) word }
{
    let part = axis.of(word / 0x1_0000_0000, word);
    match end {
        GridAreaEnd::Start => (part % 0x1_0000) as u32,
        GridAreaEnd::End => (part / 0x1_0000 % 0x1_0000) as u32,
    }
}

// A drawn area: the word of its edges, the word of where its name lies, and the bytes of the names.
#[derive(Clone, Copy)]
struct DrawnArea<'a> {
    edges: u64,
    name: u64,
    store: &'a [u8],
}

impl<'a> DrawnAreas<'a> {
    // The area at a place, with the word of its edges. A name that is missing is word 0.
    fn area(self, place: usize, edges: u64) -> DrawnArea<'a>
        ensures edges { result.edges ≡ edges }
        ensures name { result.name ≡ get_or self.entry.names.now place 0 }
        ensures store { result.store.now ≡ self.entry.store.now }
    {
        DrawnArea {
            edges,
            name: word_at(self.names, place),
            store: self.store,
        }
    }
}

impl DrawnArea<'_> {
    // Whether the area has the name.
    fn is_named(self, name: &[u8]) -> bool
        ensures { result ≡ eq_bytes (name_in self.entry.store.now (entry_of self.entry.name)) name.now }
    {
        same_bytes(name_in(self.store, NameEntry::from(self.name)), name)
    }
}

// The distance of an area's edge where it is below `best` and the area has the name, else `best`. A name whose edge is not nearer is not looked at.
fn nearest_area(sought: Sought, area: DrawnArea, name: &[u8], end: GridAreaEnd, best: u32) -> u32
    ensures { Nearest (λ d. edged? name.now (side_of end) (number_at sought.nth.way sought.nth.from d) (area_of sought.axis area.entry.edges area.entry.name area.entry.store.now)) best result }
{
    let number = edge_in(sought.axis, end, area.edges);
    let near = sought.nearer(number, best);
    if near < best && area.is_named(name) {
        return near;
    }
    best
}

// The least distance below `limit` of an edge of a drawn area that has the name, `limit` where there is none.
pub(crate) fn nearest_areas(
    sought: Sought,
    areas: DrawnAreas,
    name: &[u8],
    end: GridAreaEnd,
    limit: u32,
) -> u32
    ensures { Nearest (λ d. any (edged? name.now (side_of end) (number_at sought.nth.way sought.nth.from d)) (areas_of sought.axis areas.entry.edges.now areas.entry.names.now areas.entry.store.now)) limit result }
{
    let mut best = limit;
    for (i, word) in areas.edges.iter().enumerate() {
        best = nearest_area(sought, areas.area(i, *word), name, end, best);
    }
    best
}

impl Marks {
    // Mark an edge of a drawn area that has the name. A name whose edge lies outside is not looked at.
    fn mark_area(&mut self, axis: Axis, area: DrawnArea, name: &[u8], end: GridAreaEnd)
        ensures { Marked self.old self.new (λ n. edged? name.now (side_of end) n (area_of axis area.entry.edges area.entry.name area.entry.store.now)) }
    {
        let number = edge_in(axis, end, area.edges);
        if self.holds(number) && area.is_named(name) {
            self.mark_line(number);
        }
    }

    // Mark an edge of each drawn area that has the name.
    pub(crate) fn mark_areas(
        &mut self,
        axis: Axis,
        areas: DrawnAreas,
        name: &[u8],
        end: GridAreaEnd,
    )
        ensures { Marked self.old self.new (λ n. any (edged? name.now (side_of end) n) (areas_of axis areas.entry.edges.now areas.entry.names.now areas.entry.store.now)) }
    {
        for (i, word) in areas.edges.iter().enumerate() {
            self.mark_area(axis, areas.area(i, *word), name, end);
        }
    }
}
