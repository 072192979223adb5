// The least resize of an axis of a panel: the call on what read_sheet gave.

#![tactic(auto)]

ghost use Rattle.std.specs.Prelude.{◌≡◌};
ghost use Rattle.least_resize.specs.Answer.{answered_resize};
ghost use Rattle.panel_resize.specs.Resize.{axis_resize, least_resize_in};

use axis_tables::AxisGrid;
use coordinates::{Axis, Fault};
use least_resize::answer::resize_answer;
use panel_calls::part::template_on;
use panel_tables::Grid;
use panel_tables::axis::grid_in;
use panel_tables::region::{PANEL_WORDS, axis_words};
use sizing::Sizing;
use template_rules::AutoRepeatStrategy;

// The least resize of one axis, from its state and its words.
fn resize_on(grid: AxisGrid, words: &[u64]) -> Result<Option<u32>, Fault>
    ensures { answered_resize result ≡ axis_resize grid words.now }
{
    resize_answer(
        template_on(grid, words),
        grid.space.inner_bits(),
        AutoRepeatStrategy::from(grid.space.rule),
        Sizing::from(grid.space.gap),
    )
}

// The nearest whole size at which the automatic repeat of an axis is written out another number of times, the wider of two. 3: the template
// counts as none or has no automatic repeat, the axis has no inner size or none that is whole, or its gap is no length.
pub fn least_resize(
    grid: Grid,
    words: &[u64; PANEL_WORDS],
    axis: Axis,
) -> Result<Option<u32>, Fault>
    ensures { answered_resize result ≡ least_resize_in grid words.now axis }
{
    resize_on(grid_in(grid, axis), axis_words(words, axis))
}
