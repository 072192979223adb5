// The calls of the cursor on a panel.
ghost use Rattle.std.specs.Prelude.{◌≡◌};
ghost use Rattle.palgwern.specs.Cursor.{nearest_line_of};

use crate::axis_in;
use line_positions::Span;
use panel_positions::{LineAnswer, nearest_line, positions_on_no_axis};
use panel_tables::Grid;
use panel_tables::region::PANEL_WORDS;

// The line of an axis nearest to a cursor, by the bits of its position in pixels.
#[tactic(auto, unfolding(crate::specs::Cursor::nearest_line_of))]
#[unsafe(no_mangle)]
pub extern "C" fn palgwern_nearest_line(
    grid: Grid,
    words: &[u64; PANEL_WORDS],
    axis: u32,
    items: &[u8],
    cursor: u32,
) -> LineAnswer
    ensures { result ≡ nearest_line_of grid words.now axis items.now cursor }
{
    let Ok(axis) = axis_in(axis) else {
        return LineAnswer::from(Err(positions_on_no_axis(Span::at(cursor))));
    };
    LineAnswer::from(nearest_line(grid, words, axis, items, cursor))
}
