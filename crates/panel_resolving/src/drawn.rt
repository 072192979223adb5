// Whether a drawn area gives lines to a name.
ghost use Rattle.std.specs.Prelude.{◌≡◌, get_or};
ghost use Rattle.name_rules.specs.Rule.{eq_bytes};
ghost use Rattle.name_entries.specs.Entries.{entry_of, name_in};
ghost use Rattle.panel_resolving.specs.Drawn.{drawn_in, edges_drawn};

use coordinates::word_at;
use name_entries::NameEntry;
use name_entries::entry::name_in;
use name_lines::JoinedName;
use name_search::DrawnAreas;

// Whether the area at a place has the name; a word that is missing is read as 0.
fn is_named(areas: &[u64], place: usize, areastore: &[u8], name: &[u8]) -> bool
    ensures { result ≡ eq_bytes (name_in areastore.now (entry_of (get_or areas.now place 0))) name.now }
{
    name_in(areastore, NameEntry::from(word_at(areas, place))) == name
}

// Whether a drawn area has the name.
fn has_area(areas: DrawnAreas, name: &[u8]) -> bool
    ensures { result ≡ drawn_in areas.entry.edges.now areas.entry.names.now areas.entry.store.now name.now }
{
    (0..areas.edges.len()).any(|i| is_named(areas.names, i, areas.store, name))
}

// Whether an edge of a drawn area can be among the lines of the name.
pub(crate) fn is_drawn(areas: DrawnAreas, name: JoinedName) -> bool
    ensures { result ≡ edges_drawn areas.entry.edges.now areas.entry.names.now areas.entry.store.now name.entry.stem.now name.entry.edge }
{
    name.edge.is_some() && has_area(areas, name.stem)
}
