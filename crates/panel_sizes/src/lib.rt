// The explicit size of an axis of a panel at another inner size: what the last line of the sheet would find with it, the panel left as it is.

#![tactic(auto)]

ghost use Rattle.std.specs.Prelude.{◌≡◌};
ghost use Rattle.coordinates.specs.Refusals.{number_of};
ghost use Rattle.library_numbers.specs.Answers.{answered_size};
ghost use Rattle.panel_sizes.specs.Sizes.{state_at, no_axis_size, size_at};

use axis_tables::{AxisSize, AxisState};
use coordinates::{Axis, Fault};
use panel_tables::Panel;
use panel_tables::axis::state_in;
use panel_tables::region::{PANEL_WORDS, axis_words};
use sheet_end::size::size_in;
use sizing::range::length_in_range;

// The state of an axis with another inner size, by its bits.
pub fn state_at(state: AxisState, inner: u32) -> AxisState
    ensures { result ≡ state_at state inner }
{
    let mut after = state;
    after.grid.space.definite = 1;
    after.grid.space.inner = inner;
    after
}

// The repetitions and the explicit count of an axis at an inner size, by its bits. Refuses bits that are no length in range by 3, more than
// 10,000 explicit tracks by 4, and more than 64 components, which no sheet has, by 8.
#[tactic(auto, unfolding(crate::specs::Sizes::axis_size_at))]
pub fn size_at(
    panel: Panel,
    words: &[u64; PANEL_WORDS],
    axis: Axis,
    inner: u32,
) -> Result<AxisSize, Fault>
    ensures { answered_size result ≡ size_at panel words.now axis inner }
{
    if !length_in_range(inner) {
        return Err(Fault::Value);
    }
    let state = state_at(state_in(panel, axis), inner);
    let size = size_in(state, axis_words(words, axis))?;
    Ok(AxisSize {
        repetitions: size.repetitions,
        explicit: size.explicit,
    })
}

// What a size of no axis is refused by: its range first.
pub fn size_of_no_axis(inner: u32) -> Fault
    ensures { number_of result ≡ no_axis_size inner }
{
    if length_in_range(inner) {
        return Fault::Count;
    }
    Fault::Value
}
