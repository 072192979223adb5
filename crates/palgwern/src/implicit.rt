// Implicit tracks by argument, for programs in C and Rust.
ghost use Rattle.std.specs.Prelude.{◌≡◌};
ghost use Rattle.palgwern.specs.Implicit.{implicit_given};

use crate::axis_in;
use implicit_counts::with_implicit;
use panel_tables::Grid;

// What tracks are read from, or a refusal: its number, 0 where there is none. On a refusal the grid comes back as it came.
#[repr(C)]
#[derive(Clone, Copy, Debug, PartialEq, Eq, Default)]
pub struct GridAnswer {
    pub number: u32,
    pub grid: Grid,
}

// A grid with so many implicit tracks before and after the explicit ones of an axis, as an `extra` line would give them.
#[tactic(auto, unfolding(crate::specs::Implicit::implicit_given))]
#[unsafe(no_mangle)]
pub extern "C" fn palgwern_with_implicit(
    grid: Grid,
    axis: u32,
    negative: u32,
    positive: u32,
) -> GridAnswer
    ensures { result ≡ implicit_given grid axis negative positive }
{
    let given = axis_in(axis).and_then(|axis| with_implicit(grid, axis, negative, positive));
    GridAnswer {
        number: given.err().map_or(0, u32::from),
        grid: given.unwrap_or(grid),
    }
}
