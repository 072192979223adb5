// The explicit size of an axis, from its state and words.
ghost use Rattle.std.specs.Prelude.{◌≡◌};
ghost use Rattle.template_rules.specs.Explicit.{answered_size};
ghost use Rattle.sheet_end.specs.End.{size_in};

use axis_tables::AxisState;
use axis_tables::layout::template_in;
use coordinates::Fault;
use explicit_size::compute_explicit_grid_size_in_axis;
use template_rules::{ExplicitSize, RepeatSpace};

// The explicit size, as layer 3 finds it.
pub fn size_in(state: AxisState, words: &[u64]) -> Result<ExplicitSize, Fault>
    ensures { answered_size result ≡ size_in state words.now }
{
    compute_explicit_grid_size_in_axis(
        template_in(words, state.room.template),
        RepeatSpace::from(state.grid.space),
        state.room.areas,
    )
}
