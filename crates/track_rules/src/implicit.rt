// Implicit tracks: the spare sizes, which repeat.
ghost use Rattle.std.specs.Prelude.{◌≡◌, ◌-◌, ◌%◌};
ghost use Rattle.track_rules.specs.Tracks.{auto_size};
ghost use Rattle.track_rules.specs.Written.{spare_sizes};
ghost use Rattle.track_rules.specs.Records.{implicit, spare_at, negative_at, no_track};

use crate::{TrackSource, WrittenTrack};
use sizing::{MinMax, Sizing};
use template_rules::SizeTables;

// The size where there are no spare sizes.
pub fn auto_size() -> MinMax
    ensures { result ≡ auto_size }
{
    MinMax::from(Sizing::Auto)
}

// A track whose size is a spare one.
pub fn implicit(source: TrackSource, size: MinMax) -> WrittenTrack
    ensures { result ≡ implicit source size }
{
    WrittenTrack {
        size,
        source,
        fit: false,
    }
}

// An auto track, for a place where there is no track.
pub fn no_track() -> WrittenTrack
    ensures { result ≡ no_track }
{
    implicit(TrackSource::Positive, auto_size())
}

// Spare size `index` of a list that repeats, auto where there is none.
#[tactic(auto, using(crate::proofs::Words::spares_none, crate::proofs::Words::spares_get))]
pub fn spare_at(spares: SizeTables, index: u64) -> MinMax
    ensures { result ≡ spare_at (spare_sizes spares.entry) index }
{
    let length = spares.minimums.len() as u64;
    if length == 0 {
        return auto_size();
    }
    spares.track_at(index % length)
}

// The place of the spare size of the first of `count` tracks before the grid, counted back from past the last spare size; `spare_at`
// takes that place for the first.
pub fn first_spare(spares: usize, count: u64) -> u64
    ensures { result ≡ spares - count % spares }
{
    if spares == 0 {
        0
    } else {
        spares as u64 - count % spares as u64
    }
}

// Of `count` tracks before the grid, track `index`.
#[tactic(auto, using(crate::proofs::Words::spares_length))]
pub fn negative_at(spares: SizeTables, count: u16, index: u16) -> WrittenTrack
    ensures { result ≡ negative_at (spare_sizes spares.entry) count index }
{
    let first = first_spare(spares.minimums.len(), u64::from(count));
    let size = spare_at(spares, first + u64::from(index));
    implicit(TrackSource::Negative, size)
}
