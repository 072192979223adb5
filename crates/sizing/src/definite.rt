// What a size measures in a definite inner size.
ghost use Rattle.std.specs.Prelude.{◌≡◌};
ghost use Rattle.sizing.specs.Words.{sizing_of, min_max_of};
ghost use Rattle.sizing.specs.Definite.{length_alone, definite_of, raised_or, track_value_of, gap_of};

use crate::Sizing;
use crate::word::{LARGEST_BITS, LARGEST_PERCENT_BITS, length_of, percentage_of};

// The word of the largest length, 65,535.
pub const LARGEST_LENGTH: u64 = LARGEST_BITS as u64;

// The word of a percentage of 0, and that of the largest, 10.
const LEAST_PERCENTAGE: u64 = 0x1_0000_0000;

const LARGEST_PERCENTAGE: u64 = LEAST_PERCENTAGE + LARGEST_PERCENT_BITS as u64;

// The word of a fraction of 0: from it on no word has a definite size.
const LEAST_FRACTION: u64 = 0x2_0000_0000;

// A length; no other kind is definite where there is no inner size.
pub fn length_alone(size: Sizing) -> Option<f32>
    ensures { result ≡ length_alone size }
{
    let Sizing::Length(length) = size else {
        return None;
    };
    Some(length)
}

// A length, or a percentage times the inner size; no other kind has a definite size.
pub fn definite_value(size: Sizing, inner: f32) -> Option<f32>
    ensures { result ≡ definite_of size inner }
{
    match size {
        Sizing::Length(v) => Some(v),
        Sizing::Percent(p) => Some(p * inner),
        _ => None,
    }
}

// What the size of a word measures. A length in range is told by one comparison, since its kind is 0: its word is its bits. So are a
// percentage in range, and a kind that has no definite size.
#[tactic(auto, using(crate::proofs::Words::length_word, crate::proofs::Words::percentage_word, crate::proofs::Words::indefinite_word))]
pub fn definite_of_word(word: u64, inner: f32) -> Option<f32>
    ensures { result ≡ definite_of (sizing_of word) inner }
{
    if word <= LARGEST_LENGTH {
        return Some(length_of(word as u32));
    }
    if (LEAST_PERCENTAGE..=LARGEST_PERCENTAGE).contains(&word) {
        return Some(percentage_of((word % 0x1_0000_0000) as u32) * inner);
    }
    if LEAST_FRACTION <= word {
        None
    } else {
        definite_value(Sizing::from(word), inner)
    }
}

// The definite maximum raised to the definite minimum, else the minimum. The Rust's is `max.max(min)`: at equal values either is the
// same bits, since no size in range is a NaN or minus zero (the law `neither-less`).
pub fn raised(maximum: Option<f32>, minimum: Option<f32>) -> Option<f32>
    ensures { result ≡ raised_or maximum minimum }
{
    match (maximum, minimum) {
        (Some(high), Some(low)) if high < low => minimum,
        (Some(_), _) => maximum,
        _ => minimum,
    }
}

// What a track measures, from the words of its minimum and its maximum.
pub fn track_definite_value(min: u64, max: u64, inner: f32) -> Option<f32>
    ensures { result ≡ track_value_of (min_max_of min max) inner }
{
    let minimum = definite_of_word(min, inner);
    let maximum = definite_of_word(max, inner);
    raised(maximum, minimum)
}

// A gap's length, or its percentage times the inner size; 0 for a kind that has no definite size.
pub fn gap_value(gap: Sizing, inner: f32) -> f32
    ensures { result ≡ gap_of gap inner }
{
    definite_value(gap, inner).unwrap_or(0.0)
}
