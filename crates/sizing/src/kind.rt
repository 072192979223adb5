// Kinds of sizes and their numbers, in the order of a sheet's words: len pct fr auto min max fitl fitp.
ghost use Rattle.std.specs.Prelude.{◌≡◌};
ghost use Rattle.sizing.specs.Kinds.{number_of_kind, Decodes};
ghost use Rattle.sizing.specs.Words.{kind_of};
ghost use Rattle.sizing.specs.Ranges.{minimum_kind};

use crate::Sizing;

// The kind of a size.
#[derive(Clone, Copy, Debug, PartialEq, Eq)]
pub enum Kind {
    Length,
    Percent,
    Fraction,
    Auto,
    MinContent,
    MaxContent,
    FitContentLength,
    FitContentPercent,
}

// A number that no kind has.
#[derive(Clone, Copy, Debug, PartialEq, Eq)]
pub struct UnknownKind(pub u32);

impl From<Kind> for u32 {
    ghost from_gives = { λ kind number. number ≡ number_of_kind kind };

    // The number of a kind, which is its place in the enum.
    fn from(kind: Kind) -> u32 {
        kind as u32
    }
}

impl TryFrom<u32> for Kind {
    type Error = UnknownKind;

    ghost try_from_gives = { Decodes };

    // The kind of a number, which has to be below 8.
    fn try_from(number: u32) -> Result<Kind, UnknownKind> {
        match number {
            0 => Ok(Kind::Length),
            1 => Ok(Kind::Percent),
            2 => Ok(Kind::Fraction),
            3 => Ok(Kind::Auto),
            4 => Ok(Kind::MinContent),
            5 => Ok(Kind::MaxContent),
            6 => Ok(Kind::FitContentLength),
            7 => Ok(Kind::FitContentPercent),
            _ => Err(UnknownKind(number)),
        }
    }
}

impl Kind {
    // Whether a minimum may be of this kind: fractions and fit-content are for the maximum only.
    #[tactic(auto, unfolding(crate::specs::Ranges::minimum_kind))]
    pub fn is_of_minimum(self) -> bool
        ensures { result ≡ minimum_kind (number_of_kind self) }
    {
        !matches!(
            self,
            Kind::Fraction | Kind::FitContentLength | Kind::FitContentPercent
        )
    }
}

impl Sizing {
    // The kind that a size is printed by.
    pub fn kind(self) -> Kind
        ensures { number_of_kind result ≡ kind_of self }
    {
        match self {
            Sizing::Length(_) => Kind::Length,
            Sizing::Percent(_) => Kind::Percent,
            Sizing::Fraction(_) => Kind::Fraction,
            Sizing::Auto => Kind::Auto,
            Sizing::MinContent => Kind::MinContent,
            Sizing::MaxContent => Kind::MaxContent,
            Sizing::FitContentLength(_) => Kind::FitContentLength,
            Sizing::FitContentPercent(_) => Kind::FitContentPercent,
        }
    }
}
