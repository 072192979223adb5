// The explicit size of an axis at another inner size, for programs in C and Rust.
ghost use Rattle.std.specs.Prelude.{◌≡◌};
ghost use Rattle.palgwern.specs.Sizes.{size_at_of};

use crate::axis_in;
use library_numbers::SizeAnswer;
use panel_sizes::{size_at, size_of_no_axis};
use panel_tables::Panel;
use panel_tables::region::PANEL_WORDS;

// The repetitions and the explicit count that an axis would have at an inner size, by its bits; the panel stays.
#[tactic(auto, unfolding(crate::specs::Sizes::size_at_of))]
#[unsafe(no_mangle)]
pub extern "C" fn palgwern_size_at(
    panel: Panel,
    words: &[u64; PANEL_WORDS],
    axis: u32,
    inner: u32,
) -> SizeAnswer
    ensures { result ≡ size_at_of panel words.now axis inner }
{
    let Ok(axis) = axis_in(axis) else {
        return SizeAnswer::from(Err(size_of_no_axis(inner)));
    };
    SizeAnswer::from(size_at(panel, words, axis, inner))
}
