// The edges of an area of a panel by its name: those that an `area` line or a picture draws, and those that names make.

#![tactic(auto)]

pub mod answer;
mod edges;

ghost use Rattle.std.specs.Prelude.{◌≡◌};
ghost use Rattle.panel_rules.specs.Calls.{area_table_in, name_tables_in};
ghost use Rattle.panel_areas.specs.Areas.{answered_area, name_check, drawn_area, named_area};

use coordinates::{Axis, Fault, Line};
use edges::{drawn_lines, named_lines};
use name_entries::name::is_name;
use panel_names::LentNames;
use panel_tables::region::{PANEL_BYTES, PANEL_WORDS};
use panel_tables::{Grid, LentPanel};

// The lines of an area's edges, by their numbers from 1, where there are any.
pub type AreaLines = Line<Option<u32>>;

// The lines of an area's edges, 0 where there is none, or a refusal and zeros.
#[repr(C)]
#[derive(Clone, Copy, Debug, PartialEq, Eq, Default)]
pub struct AreaAnswer {
    pub number: u32,
    pub start: u32,
    pub end: u32,
}

// Refused by 2: what is no name.
fn check_name(name: &[u8]) -> Result<(), Fault>
    ensures { result ≡ name_check name.now }
{
    if is_name(name) {
        return Ok(());
    }
    Err(Fault::Name)
}

// The edges of the drawn area of a name in an axis. Refused by 2: what is no name.
#[tactic(auto, unfolding(crate::specs::Areas::drawn_area))]
pub fn drawn_area(
    grid: Grid,
    words: &[u64; PANEL_WORDS],
    bytes: &[u8; PANEL_BYTES],
    axis: Axis,
    name: &[u8],
) -> Result<AreaLines, Fault>
    ensures { answered_area result ≡ drawn_area grid (area_table_in words.now bytes.now) axis name.now }
{
    check_name(name)?;
    Ok(drawn_lines(grid, words, bytes, axis, name))
}

// The first lines of an axis that bear NAME-start and NAME-end, by entries or as an edge of a drawn area: those that a placement by the
// name alone takes. Refused by 2: what is no name; then by 10: a store below 32,768 bytes.
#[tactic(auto, unfolding(crate::specs::Areas::named_area))]
pub fn named_area(grid: Grid, lent: LentPanel, axis: Axis, name: &[u8]) -> Result<AreaLines, Fault>
    ensures { answered_area result ≡ named_area grid (name_tables_in lent.entry.words.now lent.entry.columnstore.now lent.entry.rowstore.now) (area_table_in lent.entry.words.now lent.entry.bytes.now) axis name.now }
{
    check_name(name)?;
    LentNames::from(lent).check_stores()?;
    Ok(named_lines(grid, lent, axis, name))
}
