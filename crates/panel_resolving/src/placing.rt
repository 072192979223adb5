// One placement of a panel with its names resolved.
ghost use Rattle.std.specs.Prelude.{◌≡◌, ◌<◌, true, false};
ghost use Rattle.name_resolver.specs.Placements.{answered_resolution, resolution_of};
ghost use Rattle.panel_rules.specs.Calls.{NameTables, NamedWords, names_in};
ghost use Rattle.name_groups.specs.declared.key.Grouping.TheVariants.{Whole};
ghost use Rattle.panel_tables.specs.Axes.{grid_in};
ghost use Rattle.panel_tables.specs.Placements.{placement_at};
ghost use Rattle.panel_tables.specs.Regions.{area_bytes_in, area_words_in, placement_bytes_in, placement_words_in};
ghost use Rattle.panel_rules.specs.Placing.{answered_placement, line_placement, placed_by, resolve_placement};
ghost use Rattle.panel_resolving.specs.Chosen.{on_axis};
ghost use Rattle.panel_resolving.specs.Lent.{lent_areas, lent_names, lent_placements};
ghost use Rattle.panel_resolving.specs.Names.{bears_by, resolution_by};
ghost use Rattle.panel_resolving.specs.Whole.{whole_around};

use crate::Around;
use crate::axis_run::Run;
use crate::write::write_beside;
use coordinates::limit::PLACEMENT_NUMBERS;
use coordinates::{Axis, Fault};
use name_entries::Names;
use name_groups::key::Grouping;
use name_resolver::ResolvedPlacement;
use panel_names::LentNames;
use panel_rules::PlacedLine;
use panel_tables::axis::grid_in;
use panel_tables::placement::placement_at;
use panel_tables::region::{PANEL_BYTES, PANEL_WORDS, placement_words};
use panel_tables::{Grid, LentPanel, PlacementPlace};

// The answer for a placement, or the resolver's refusal.
pub(crate) fn placed_on(
    resolved: Result<ResolvedPlacement, Fault>,
    place: PlacementPlace,
) -> Result<PlacedLine, Fault>
    ensures { answered_placement result ≡ placed_by (answered_resolution resolved) place.axis place.cell false }
{
    resolved.map(|placed| PlacedLine {
        axis: place.axis,
        cell: place.cell,
        placed,
    })
}

// What a placement of an axis is resolved beside, its name entries kept together.
pub(crate) fn whole_around(axis: Axis, explicit: u32, areas: u32) -> Around
    ensures { result ≡ whole_around axis explicit areas }
{
    Around {
        axis,
        explicit,
        areas,
        grouping: Grouping::Whole,
    }
}

// A placement beside all name entries of its axis: a run of one.
fn resolve_one(
    around: Around,
    names: Names,
    words: &[u64; PANEL_WORDS],
    bytes: &[u8; PANEL_BYTES],
    index: u32,
) -> Result<ResolvedPlacement, Fault>
    requires grouping_value { (around.grouping ≡ Whole) × (index < 4294967295) }
    requires index_value { on_axis around.axis (placement_words_in words.now) index ≡ true }
    ensures { answered_resolution result ≡ resolution_by around.explicit (bears_by around names.entry.entries.now names.entry.store.now (area_words_in words.now) (area_bytes_in bytes.now)) (placement_bytes_in bytes.now) (line_placement (placement_at (placement_words_in words.now) index)) }
{
    let mut numbers = [0i32; PLACEMENT_NUMBERS];
    let run = Run {
        around,
        first: index,
        count: 1,
    };
    write_beside(run, names.entries, names.store, words, bytes, &mut numbers)
}

// A placement beside the names of its axis.
fn resolve_in(grid: Grid, lent: LentPanel, index: u32) -> Result<ResolvedPlacement, Fault>
    requires { index < 4294967295 }
    ensures { answered_resolution result ≡ resolution_of (names_in grid (lent_names lent.entry) (lent_areas lent.entry) (placement_at (placement_words_in lent.entry.words.now) index).axis) (placement_bytes_in lent.entry.bytes.now) (line_placement (placement_at (placement_words_in lent.entry.words.now) index)) }
{
    let axis = placement_at(placement_words(lent.words), index).axis;
    let around = whole_around(axis, grid_in(grid, axis).size.explicit, grid.areas);
    let names = LentNames::from(lent).names(grid, axis);
    resolve_one(around, names, lent.words, lent.bytes, index)
}

// Placement `index` of a panel with its names resolved. 4: no such placement; 10: a store below 32,768 bytes.
pub fn resolve_placement(grid: Grid, lent: LentPanel, index: u32) -> Result<PlacedLine, Fault>
    ensures { answered_placement result ≡ resolve_placement grid (lent_names lent.entry) (lent_areas lent.entry) (lent_placements lent.entry) index }
{
    if grid.placements <= index {
        return Err(Fault::Count);
    }
    let place = placement_at(placement_words(lent.words), index);
    let placed = placed_on(resolve_in(grid, lent, index), place)?;
    LentNames::from(lent).check_stores()?;
    Ok(placed)
}
