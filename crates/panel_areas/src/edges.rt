// The edges themselves, of any name.
ghost use Rattle.std.specs.Prelude.{◌≡◌, ℕ};
ghost use Rattle.name_lines.specs.Areas.{axis_names};
ghost use Rattle.panel_rules.specs.Calls.{area_table_in, name_tables_in, names_in};
ghost use Rattle.panel_tables.specs.Areas.{edges_in};
ghost use Rattle.panel_areas.specs.Areas.{lines_at, lines_drawn, edge_number, lines_named};

use crate::AreaLines;
use axis_tables::layout::part_from;
use coordinates::{Axis, LinePair};
use name_entries::Names;
use name_lines::{GridAreaEnd, JoinedName, NthLine};
use name_search::{DrawnAreas, Search, Sought};
use panel_names::LentNames;
use panel_tables::area::{AREA_NAMES, area_at, area_index};
use panel_tables::region::{PANEL_BYTES, PANEL_WORDS, area_bytes, area_words};
use panel_tables::{AreaEdges, Grid, LentPanel};

// The edges in an axis.
fn edges_in(edges: AreaEdges, axis: Axis) -> LinePair
    ensures { result ≡ edges_in edges axis }
{
    let columns = LinePair {
        start: edges.columnstart,
        end: edges.columnend,
    };
    let rows = LinePair {
        start: edges.rowstart,
        end: edges.rowend,
    };
    axis.of(columns, rows)
}

// The edges of the area at a place of the table, where there is one.
fn lines_at(words: &[u64], axis: Axis, place: Option<u32>) -> AreaLines
    ensures { result ≡ lines_at words.now axis place }
{
    let edges = place.map(|index| edges_in(area_at(words, index).edges, axis));
    AreaLines {
        start: edges.map(|pair| pair.start),
        end: edges.map(|pair| pair.end),
    }
}

// Those of the drawn area of a name.
#[tactic(auto, unfolding(crate::specs::Areas::lines_drawn))]
pub(crate) fn drawn_lines(
    grid: Grid,
    words: &[u64; PANEL_WORDS],
    bytes: &[u8; PANEL_BYTES],
    axis: Axis,
    name: &[u8],
) -> AreaLines
    ensures { result ≡ lines_drawn grid (area_table_in words.now bytes.now) axis name.now }
{
    let areas = area_words(words);
    lines_at(
        areas,
        axis,
        area_index(grid.areas, areas, area_bytes(bytes), name),
    )
}

// All that names the lines of an axis.
#[derive(Clone, Copy)]
struct AxisLines<'a> {
    axis: Axis,
    names: Names<'a>,
    areas: DrawnAreas<'a>,
}

impl AxisLines<'_> {
    // The first line that bears the name of an edge of an area, by its number.
    fn edge(self, name: &[u8], edge: GridAreaEnd) -> Option<u32>
        ensures { (explicit : ℕ) → result ≡ edge_number (axis_names explicit self.entry.axis self.entry.names.entries.now self.entry.names.store.now self.entry.areas.edges.now self.entry.areas.names.now self.entry.areas.store.now) name.now edge }
    {
        let search = Search {
            sought: Sought {
                axis: self.axis,
                nth: NthLine::FIRST,
            },
            name: JoinedName {
                stem: name,
                edge: Some(edge),
            },
            names: self.names,
            areas: self.areas,
        };
        match search.nth_line() {
            Ok(line) => Some(line + 1),
            Err(_) => None,
        }
    }
}

// Those that names make, entries and drawn areas.
#[tactic(auto, unfolding(crate::specs::Areas::lines_named))]
pub(crate) fn named_lines(grid: Grid, lent: LentPanel, axis: Axis, name: &[u8]) -> AreaLines
    ensures { result ≡ lines_named (names_in grid (name_tables_in lent.entry.words.now lent.entry.columnstore.now lent.entry.rowstore.now) (area_table_in lent.entry.words.now lent.entry.bytes.now) axis) name.now }
{
    let areas = area_words(lent.words);
    let lines = AxisLines {
        axis,
        names: LentNames::from(lent).names(grid, axis),
        areas: DrawnAreas {
            edges: part_from(areas, 0, grid.areas),
            names: part_from(areas, AREA_NAMES, grid.areas),
            store: area_bytes(lent.bytes),
        },
    };
    AreaLines {
        start: lines.edge(name, GridAreaEnd::Start),
        end: lines.edge(name, GridAreaEnd::End),
    }
}
