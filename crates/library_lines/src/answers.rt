// What the conversions answer, as structs of numbers.
ghost use Rattle.std.specs.Prelude.{◌≡◌};
ghost use Rattle.coordinates.specs.Answers.{answered_conversion};
ghost use Rattle.track_counts.specs.Counts.{answered_track, answered_index};
ghost use Rattle.library_lines.specs.Numbers.{conversion_numbers, track_numbers, record_numbers};

use crate::{ConversionAnswer, LineRecord, TrackNumbers};
use coordinates::{Fault, MarkedLine};

impl From<Result<MarkedLine, Fault>> for ConversionAnswer {
    ghost from_gives = { λ converted answer. answer ≡ conversion_numbers (answered_conversion converted) };

    // The line and its mark, or the number of the fault and zeros.
    fn from(converted: Result<MarkedLine, Fault>) -> ConversionAnswer {
        match converted {
            Ok(marked) => ConversionAnswer {
                number: 0,
                line: i32::from(marked.value.0),
                held: u32::from(marked.held),
            },
            Err(fault) => ConversionAnswer {
                number: u32::from(fault),
                ..ConversionAnswer::default()
            },
        }
    }
}

impl From<Result<i16, Fault>> for TrackNumbers {
    ghost from_gives = { λ found answer. answer ≡ track_numbers (answered_track found) };

    // The track, or the number of the fault and 0.
    fn from(found: Result<i16, Fault>) -> TrackNumbers {
        match found {
            Ok(track) => TrackNumbers {
                number: 0,
                track: i32::from(track),
            },
            Err(fault) => TrackNumbers {
                number: u32::from(fault),
                ..TrackNumbers::default()
            },
        }
    }
}

impl From<Result<Option<u32>, Fault>> for LineRecord {
    ghost from_gives = { λ found answer. answer ≡ record_numbers (answered_index found) };

    // Whether the axis has the line, and its record; or the number of the fault and zeros.
    fn from(found: Result<Option<u32>, Fault>) -> LineRecord {
        match found {
            Ok(Some(place)) => LineRecord {
                number: 0,
                found: 1,
                place,
            },
            Ok(None) => LineRecord::default(),
            Err(fault) => LineRecord {
                number: u32::from(fault),
                ..LineRecord::default()
            },
        }
    }
}
