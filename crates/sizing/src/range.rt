// The ranges of sizes, by their kinds.
ghost use Rattle.std.specs.Prelude.{◌≡◌, ◌/◌, ◌%◌, ◌≤◌};
ghost use Rattle.sizing.specs.Words.{largest_bits};
ghost use Rattle.sizing.specs.Ranges.{value_in_range, length_in_range, up_to, largest_length, largest_percentage, sizing_in_range};
ghost use Rattle.sizing.specs.Steps.{largest_bits_of, bits_up_to};
ghost use Rattle.sizing.specs.Kinds.{number_of_kind};

use crate::word::{LARGEST_BITS, LARGEST_PERCENT_BITS};
use crate::{Kind, Sizing};

// The bits of the largest value of a kind: of 10 for percentages, 0 for keywords, 65,535 for the others.
#[tactic(auto, unfolding(crate::specs::Steps::largest_bits_of))]
pub(crate) fn largest_bits(kind: Kind) -> u32
    ensures value { result ≡ largest_bits_of (number_of_kind kind) }
    ensures few { result ≤ largest_bits }
{
    match kind {
        Kind::Percent | Kind::FitContentPercent => LARGEST_PERCENT_BITS,
        Kind::Auto | Kind::MinContent | Kind::MaxContent => 0,
        Kind::Length | Kind::Fraction | Kind::FitContentLength => LARGEST_BITS,
    }
}

// Whether bits are those of a size of a kind in its range. Bits are in the order of the numbers from 0 on, and
// those of negative numbers, minus zero and NaNs are above the largest's.
#[tactic(auto, using(crate::proofs::Ranges::kind_bits), unfolding(crate::specs::Ranges::value_in_range))]
pub fn value_in_range(kind: Kind, bits: u32) -> bool
    ensures { result ≡ value_in_range (number_of_kind kind) bits }
{
    bits <= largest_bits(kind)
}

// Whether a word is that of a size in its range: that of a number that no kind has is not.
#[tactic(auto, unfolding(crate::specs::Ranges::value_in_range))]
pub fn word_in_range(word: u64) -> bool
    ensures { result ≡ value_in_range (word / 4294967296) (word % 4294967296) }
{
    let Ok(kind) = Kind::try_from((word / 0x1_0000_0000) as u32) else {
        return false;
    };
    value_in_range(kind, (word % 0x1_0000_0000) as u32)
}

// Whether bits are those of an inner size in range.
#[tactic(auto, using(crate::proofs::Ranges::length_bits), unfolding(crate::specs::Ranges::length_in_range))]
pub fn length_in_range(bits: u32) -> bool
    ensures { result ≡ length_in_range bits }
{
    bits <= LARGEST_BITS
}

// Whether the bits of an f32 are at most those of the largest number allowed. A NaN is no number.
#[tactic(auto, using(crate::proofs::Bits::same_no_nan, crate::proofs::Bits::other_nan), unfolding(crate::specs::Steps::bits_up_to))]
fn bits_up_to(most: u32, x: f32) -> bool
    ensures { result ≡ bits_up_to most x }
{
    !x.is_nan() && x.to_bits() <= most
}

// Whether an f32 is a length, a fraction or an inner size in range.
#[tactic(auto, using(crate::proofs::Ranges::length_value))]
pub fn number_in_range(x: f32) -> bool
    ensures { result ≡ up_to largest_length x }
{
    bits_up_to(LARGEST_BITS, x)
}

// Whether an f32 is a percentage in range.
#[tactic(auto, using(crate::proofs::Ranges::percentage_value))]
fn percentage_in_range(x: f32) -> bool
    ensures { result ≡ up_to largest_percentage x }
{
    bits_up_to(LARGEST_PERCENT_BITS, x)
}

// Whether the number of a size is in the range of its kind; a keyword has none.
pub fn sizing_in_range(size: Sizing) -> bool
    ensures { result ≡ sizing_in_range size }
{
    match size {
        Sizing::Length(v) | Sizing::Fraction(v) | Sizing::FitContentLength(v) => number_in_range(v),
        Sizing::Percent(p) | Sizing::FitContentPercent(p) => percentage_in_range(p),
        Sizing::Auto | Sizing::MinContent | Sizing::MaxContent => true,
    }
}
