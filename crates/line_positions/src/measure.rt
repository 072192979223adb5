// What a record measures, where that is definite.
ghost use Rattle.std.specs.Prelude.{◌≡◌};
ghost use Rattle.line_positions.specs.Positions.{definite_in, record_value_in};

use sizing::Sizing;
use sizing::definite::{definite_value, length_alone, raised};
use track_rules::GridTrack;

// A length, or a percentage of the inner size where there is one.
pub fn definite_in(size: Sizing, inner: Option<f32>) -> Option<f32>
    ensures { result ≡ definite_in inner size }
{
    match inner {
        Some(x) => definite_value(size, x),
        None => length_alone(size),
    }
}

// What a record measures.
pub fn record_value(track: GridTrack, inner: Option<f32>) -> Option<f32>
    ensures { result ≡ record_value_in inner track }
{
    let maximum = definite_in(track.size.max, inner);
    let minimum = definite_in(track.size.min, inner);
    raised(maximum, minimum)
}
