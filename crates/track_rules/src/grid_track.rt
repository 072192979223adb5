// The records that there are.
ghost use Rattle.std.specs.Prelude.{◌≡◌};
ghost use Rattle.track_rules.specs.Tracks.{grid_track, gutter_of, track_of, zero_grid_track};

use crate::{GridTrack, GridTrackKind, TrackSource, WrittenTrack};
use sizing::{MinMax, Sizing};

// Makes every record. A collapsed one is a fixed one of size 0, from the same source.
pub fn new_with_kind(
    kind: GridTrackKind,
    source: TrackSource,
    size: MinMax,
    collapsed: bool,
) -> GridTrack
    ensures { result ≡ grid_track kind source size collapsed }
{
    GridTrack {
        kind,
        collapsed,
        source,
        size: if collapsed { MinMax::default() } else { size },
    }
}

// A gutter: minimum and maximum are the gap.
pub fn gutter(gap: Sizing, collapsed: bool) -> GridTrack
    ensures { result ≡ gutter_of gap collapsed }
{
    let size = MinMax::from(gap);
    new_with_kind(GridTrackKind::Gutter, TrackSource::Gutter, size, collapsed)
}

// A track as it is written out, or collapsed.
pub fn track(written: WrittenTrack, collapsed: bool) -> GridTrack
    ensures { result ≡ track_of written collapsed }
{
    new_with_kind(
        GridTrackKind::Track,
        written.source,
        written.size,
        collapsed,
    )
}

// The zero record.
pub fn zero() -> GridTrack
    ensures { result ≡ zero_grid_track }
{
    GridTrack::default()
}
