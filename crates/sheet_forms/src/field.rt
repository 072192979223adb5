// What one field gives: a value, or its fault.
ghost use Rattle.std.specs.Prelude.{◌≡◌};
ghost use Rattle.sheet_forms.specs.Fields.{axis_of, count_of};
ghost use Rattle.sheet_forms.specs.Answers.{axis_said, number_said};

use coordinates::{Axis, Fault};
use text::read_count;

// An axis is `c` or `r`.
#[tactic(auto, unfolding(crate::specs::Fields::axis_of, text::specs::Split::index, text::specs::Split::same))]
pub fn axis(f: &[u8]) -> Result<Axis, Fault>
    ensures { axis_said result ≡ axis_of f.now }
{
    match f {
        b"c" => Ok(Axis::Column),
        b"r" => Ok(Axis::Row),
        _ => Err(Fault::Unread),
    }
}

// A whole number from least to most.
#[tactic(auto, unfolding(crate::specs::Fields::count_of))]
pub fn count(f: &[u8], least: u32, most: u32) -> Result<u32, Fault>
    ensures { number_said result ≡ count_of least most f.now }
{
    Ok(read_count(f, least, most)?)
}
