// The least resize of an axis, for programs in C and Rust.
ghost use Rattle.std.specs.Prelude.{◌≡◌};
ghost use Rattle.palgwern.specs.Resize.{least_resize_of};

use crate::axis_in;
use least_resize::ResizeAnswer;
use panel_tables::Grid;
use panel_tables::region::PANEL_WORDS;

// The nearest whole size at which the automatic repeat of an axis is written out another number of times.
#[tactic(auto, unfolding(crate::specs::Resize::least_resize_of))]
#[unsafe(no_mangle)]
pub extern "C" fn palgwern_least_resize(
    grid: Grid,
    words: &[u64; PANEL_WORDS],
    axis: u32,
) -> ResizeAnswer
    ensures { result ≡ least_resize_of grid words.now axis }
{
    ResizeAnswer::from(axis_in(axis).and_then(|axis| panel_resize::least_resize(grid, words, axis)))
}
