// What a record is and where it came from, as numbers.
ghost use Rattle.std.specs.Prelude.{◌≡◌};
ghost use Rattle.track_rules.specs.Numbers.{kind_number, source_number};

use crate::{GridTrackKind, TrackSource};

impl From<GridTrackKind> for u64 {
    ghost from_gives = { λ kind number. number ≡ kind_number kind };

    // The number of a kind of record, which is its place in the enum.
    fn from(kind: GridTrackKind) -> u64 {
        kind as u64
    }
}

impl From<TrackSource> for u64 {
    ghost from_gives = { λ source number. number ≡ source_number source };

    // The number of a source, which is its place in the enum.
    fn from(source: TrackSource) -> u64 {
        source as u64
    }
}
