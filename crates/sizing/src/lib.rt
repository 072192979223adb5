// Layer 2: sizes of tracks, the words that hold them, the range of each kind, and what a size measures where that is definite.

#![tactic(auto)]

ghost use Rattle.std.specs.Prelude.{◌≡◌};
ghost use Rattle.sizing.specs.Words.{zero32};
ghost use Rattle.sizing.specs.declared.Sizing.TheVariants.{Length};

pub mod definite;
pub mod kind;
pub mod range;
pub mod word;

pub use kind::Kind;

// The size of a track at one end.
#[derive(Clone, Copy, Debug, PartialEq)]
pub enum Sizing {
    Length(f32),
    Percent(f32),
    Fraction(f32),
    Auto,
    MinContent,
    MaxContent,
    FitContentLength(f32),
    FitContentPercent(f32),
}

impl Default for Sizing {
    ghost is_default = { λ size. size ≡ Length zero32 };

    // A length of 0.
    fn default() -> Sizing {
        Sizing::Length(0.0)
    }
}

// The minimum and the maximum of a track.
#[derive(Clone, Copy, Debug, PartialEq, Default)]
pub struct MinMax {
    pub min: Sizing,
    pub max: Sizing,
}

impl From<Sizing> for MinMax {
    ghost from_gives = { λ size both. both ≡ record { min = size; max = size } };

    // A track of one size at both ends.
    fn from(size: Sizing) -> MinMax {
        MinMax {
            min: size,
            max: size,
        }
    }
}
