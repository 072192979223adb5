// The line names of a panel, and the entries that show them.
ghost use Rattle.std.specs.Prelude.{◌≡◌};
ghost use Rattle.panel_rules.specs.Calls.{line_name_in};
ghost use Rattle.panel_names.specs.Lent.{lent_tables};
ghost use Rattle.panel_names.specs.LineEntries.{shown_entry_in};

use crate::LentNames;
use coordinates::Axis;
use name_entries::NameEntry;
use name_entries::entry::name_in;
use panel_tables::Grid;
use panel_tables::axis::grid_in;

// The entry that shows a name of a line of an axis, by its place from 0: none where that line and place hold none, or a store is
// below 32,768 bytes.
#[tactic(auto, unfolding(crate::specs::LineEntries::shown_entry_in))]
pub fn line_entry(
    grid: Grid,
    lent: LentNames,
    axis: Axis,
    line: u32,
    place: u32,
) -> Option<NameEntry>
    ensures { result ≡ shown_entry_in grid (lent_tables lent.entry) axis line place }
{
    lent.check_stores().ok()?;
    let explicit = grid_in(grid, axis).size.explicit;
    lent.names(grid, axis).line_entry(explicit, line, place)
}

// A name of a line of an axis, by its place from 0: a part of the column store or of the row store. It is empty where that line
// and place hold none, or a store is below 32,768 bytes.
pub fn line_name<'a>(
    grid: Grid,
    lent: LentNames<'_, 'a>,
    axis: Axis,
    line: u32,
    place: u32,
) -> &'a [u8]
    ensures { result.now ≡ line_name_in grid (lent_tables lent.entry) axis line place }
{
    let Some(entry) = line_entry(grid, lent, axis, line, place) else {
        return &lent.columnstore[..0];
    };
    name_in(lent.store(axis), entry)
}
