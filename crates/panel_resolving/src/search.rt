// The lines of a name, sought among the entries of its group and the drawn areas.
ghost use Rattle.std.specs.Prelude.{◌++◌, ◌≡◌};
ghost use Rattle.name_lines.specs.Marks.{seek_of};
ghost use Rattle.name_lines.specs.Suffixes.{tail_of};
ghost use Rattle.name_search.specs.Sought.{line_sought};
ghost use Rattle.panel_resolving.specs.Listing.{first_named, named_part};
ghost use Rattle.panel_resolving.specs.Names.{sought_beside};

use crate::Beside;
use crate::drawn::is_drawn;
use crate::listed::{first_has_name, nth_listed};
use axis_tables::layout::part_from;
use name_entries::Names;
use name_groups::group::{Group, group_of};
use name_lines::{JoinedName, NthLine};
use name_search::{DrawnAreas, Search, Sought};
use panel_tables::area::AREA_NAMES;
use panel_tables::region::{area_bytes, area_words};

// The entries of a group that can have the name: none where they list another name. Entries that are not listed are not looked at.
#[tactic(auto, unfolding(crate::specs::Listing::named_part))]
fn named_part<'a>(group: Group<'a>, store: &[u8], name: JoinedName) -> &'a [u64]
    ensures { result.now ≡ named_part group.entry.entries.now group.entry.listed (first_named store.now group.entry.entries.now (name.entry.stem.now ++ tail_of name.entry.edge)) }
{
    if group.listed && !first_has_name(group.entries, store, name) {
        return &group.entries[..0];
    }
    group.entries
}

// The n-th line of a name, as far as the lists of lines go or by the search over all lines.
pub(crate) fn find_line(beside: Beside, name: JoinedName, nth: NthLine) -> Result<u32, u32>
    ensures { seek_of result ≡ line_sought nth (sought_beside beside.entry name.entry) }
{
    let held = beside.around.areas;
    let grouping = beside.around.grouping;
    let group = group_of(beside.index, grouping, name);
    let areas = area_words(beside.words);
    let drawn = DrawnAreas {
        edges: part_from(areas, 0, held),
        names: part_from(areas, AREA_NAMES, held),
        store: area_bytes(beside.bytes),
    };
    let own = named_part(group, beside.store, name);
    if group.listed && !is_drawn(drawn, name) {
        return nth_listed(own, nth);
    }
    let names = Names {
        entries: own,
        store: beside.store,
    };
    let search = Search {
        sought: Sought {
            axis: beside.around.axis,
            nth,
        },
        name,
        names,
        areas: drawn,
    };
    search.nth_line()
}
