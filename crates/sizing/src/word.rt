// A size as one word of a lent table: its kind times 2^32, and the bits of its f32.
ghost use Rattle.std.specs.Prelude.{◌≡◌, ◌≤◌};
ghost use Rattle.sizing.specs.Words.{float_up_to, largest_bits, largest_percent_bits, sizing_of_kind, sizing_of, size_word_of, kind_of, printed_bits, bits_of};
ghost use Rattle.sizing.specs.Kinds.{number_of_kind};

use crate::definite::LARGEST_LENGTH;
use crate::range::largest_bits;
use crate::{Kind, Sizing};

// The bits of the largest length, fraction or inner size, 65,535.
pub(crate) const LARGEST_BITS: u32 = 0x477f_ff00;

// The bits of the largest percentage, 10.
pub(crate) const LARGEST_PERCENT_BITS: u32 = 0x4120_0000;

// The f32 of a bit pattern up to that of the largest number allowed, else 0.
#[tactic(auto, using(crate::proofs::Bits::no_nan), unfolding(crate::specs::Words::float_up_to))]
fn float_up_to(most: u32, bits: u32) -> f32
    requires { most ≤ largest_bits }
    ensures { result ≡ float_up_to most bits }
{
    if bits <= most {
        f32::from_bits(bits)
    } else {
        0.0
    }
}

// The f32 of the bits of a length or an inner size in range, else 0.
pub fn length_of(bits: u32) -> f32
    ensures { result ≡ float_up_to largest_bits bits }
{
    float_up_to(LARGEST_BITS, bits)
}

// The f32 of the bits of a percentage in range, else 0.
pub(crate) fn percentage_of(bits: u32) -> f32
    ensures { result ≡ float_up_to largest_percent_bits bits }
{
    float_up_to(LARGEST_PERCENT_BITS, bits)
}

impl Kind {
    // A size of this kind from its bits, which a keyword does not read.
    #[tactic(auto, unfolding(crate::specs::Words::sizing_of_kind, crate::specs::Steps::largest_bits_of))]
    fn sizing(self, bits: u32) -> Sizing
        ensures { result ≡ sizing_of_kind (number_of_kind self) bits }
    {
        let x = float_up_to(largest_bits(self), bits);
        match self {
            Kind::Length => Sizing::Length(x),
            Kind::Percent => Sizing::Percent(x),
            Kind::Fraction => Sizing::Fraction(x),
            Kind::Auto => Sizing::Auto,
            Kind::MinContent => Sizing::MinContent,
            Kind::MaxContent => Sizing::MaxContent,
            Kind::FitContentLength => Sizing::FitContentLength(x),
            Kind::FitContentPercent => Sizing::FitContentPercent(x),
        }
    }
}

impl From<u64> for Sizing {
    ghost from_gives = { λ word size. size ≡ sizing_of word };

    // A size from its word: any word gives one, that of a number that no kind has an auto size. A length in range is told by one comparison,
    // since its kind is 0: its word is its bits.
    #[tactic(auto, unfolding(crate::specs::Words::sizing_of, crate::specs::Words::sizing_of_kind))]
    fn from(word: u64) -> Sizing {
        if word <= LARGEST_LENGTH {
            return Sizing::Length(length_of(word as u32));
        }
        let Ok(kind) = Kind::try_from((word / 0x1_0000_0000) as u32) else {
            return Sizing::Auto;
        };
        kind.sizing((word % 0x1_0000_0000) as u32)
    }
}

// The word of a kind's number and bits. Any two numbers give one.
pub fn word_of_number(kind: u32, bits: u32) -> u64
    ensures { result ≡ size_word_of kind bits }
{
    u64::from(kind) * 0x1_0000_0000 + u64::from(bits)
}

// The word of a kind and bits.
pub fn size_word(kind: Kind, bits: u32) -> u64
    ensures { result ≡ size_word_of (number_of_kind kind) bits }
{
    word_of_number(u32::from(kind), bits)
}

// The bits of an f32, 0 for a NaN, which is no size.
#[tactic(auto, using(crate::proofs::Bits::same_no_nan, crate::proofs::Bits::other_nan), unfolding(crate::specs::Words::printed_bits))]
fn printed_bits(x: f32) -> u32
    ensures { result ≡ printed_bits x }
{
    if x.is_nan() { 0 } else { x.to_bits() }
}

// The bits that a size is printed by, 0 for a keyword.
pub fn bits_of(size: Sizing) -> u32
    ensures { result ≡ bits_of size }
{
    match size {
        Sizing::Length(v)
        | Sizing::Percent(v)
        | Sizing::Fraction(v)
        | Sizing::FitContentLength(v)
        | Sizing::FitContentPercent(v) => printed_bits(v),
        Sizing::Auto | Sizing::MinContent | Sizing::MaxContent => 0,
    }
}

impl From<Sizing> for u64 {
    ghost from_gives = { λ size word. word ≡ size_word_of (kind_of size) (bits_of size) };

    // The word of a size.
    fn from(size: Sizing) -> u64 {
        size_word(size.kind(), bits_of(size))
    }
}
