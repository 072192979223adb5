// The edges of an area by its name, for programs in C and Rust.
ghost use Rattle.std.specs.Prelude.{◌≡◌};
ghost use Rattle.panel_rules.specs.Calls.{area_table_in, name_tables_in};
ghost use Rattle.palgwern.specs.Areas.{drawn_area_of, named_area_of};

use crate::axis_in;
use library_numbers::axis::entry_in_no_axis;
use panel_areas::{AreaAnswer, drawn_area, named_area};
use panel_tables::region::{PANEL_BYTES, PANEL_WORDS};
use panel_tables::{Grid, LentPanel};

// The edges of the drawn area of a name in an axis.
#[tactic(auto, unfolding(crate::specs::Areas::drawn_area_of))]
#[unsafe(no_mangle)]
pub extern "C" fn palgwern_drawn_area(
    grid: Grid,
    words: &[u64; PANEL_WORDS],
    bytes: &[u8; PANEL_BYTES],
    axis: u32,
    name: &[u8],
) -> AreaAnswer
    ensures { result ≡ drawn_area_of grid (area_table_in words.now bytes.now) axis name.now }
{
    let Ok(axis) = axis_in(axis) else {
        return AreaAnswer::from(Err(entry_in_no_axis(name)));
    };
    AreaAnswer::from(drawn_area(grid, words, bytes, axis, name))
}

// The edges of the area that names make in an axis: the first lines that bear NAME-start and NAME-end.
#[tactic(auto, unfolding(crate::specs::Areas::named_area_of))]
#[unsafe(no_mangle)]
pub extern "C" fn palgwern_named_area(
    grid: Grid,
    words: &[u64; PANEL_WORDS],
    bytes: &[u8; PANEL_BYTES],
    columnstore: &[u8],
    rowstore: &[u8],
    axis: u32,
    name: &[u8],
) -> AreaAnswer
    ensures { result ≡ named_area_of grid (name_tables_in words.now columnstore.now rowstore.now) (area_table_in words.now bytes.now) axis name.now }
{
    let Ok(axis) = axis_in(axis) else {
        return AreaAnswer::from(Err(entry_in_no_axis(name)));
    };
    let lent = LentPanel {
        words,
        bytes,
        columnstore,
        rowstore,
    };
    AreaAnswer::from(named_area(grid, lent, axis, name))
}
