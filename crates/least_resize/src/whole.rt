// Sizes in whole pixels.
ghost use Rattle.std.specs.Prelude.{◌≡◌};
ghost use Rattle.sizing.specs.Words.{float_up_to, largest_bits};
ghost use Rattle.least_resize.specs.Whole.{whole_size_of};

use sizing::word::length_of;
use template_rules::whole::floor_to_u32;

// The whole size of the bits of an inner size, where it is one. Bits that are no length's are read as 0, as everywhere.
#[tactic(auto, unfolding(crate::specs::Whole::whole_size_of))]
pub fn whole_size(bits: u32) -> Option<u16>
    ensures { result ≡ whole_size_of (float_up_to largest_bits bits) }
{
    let size = length_of(bits);
    let pixels = floor_to_u32(size);
    let back = pixels as f32;
    if back == size {
        return Some(pixels as u16);
    }
    None
}
