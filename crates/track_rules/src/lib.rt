// Layer 5: track records, their collapse, and the rule for one record.

#![tactic(auto)]

pub mod grid_track;
pub mod implicit;
pub mod number;

use sizing::{MinMax, Sizing};
use track_counts::TrackCounts;
use track_counts::counts::MOST_AXIS_TRACKS;

// The most records of an axis: each of its three counts of tracks is at most 10,000, and a gutter stands before and after each track.
pub const MOST_RECORDS: usize = 2 * MOST_AXIS_TRACKS as usize + 1;

// Whether a record is a track or a gutter between tracks.
#[derive(Clone, Copy, Debug, PartialEq, Eq, Default)]
pub enum GridTrackKind {
    #[default]
    Track,
    Gutter,
}

// Where a record came from: before the grid, a single or counted repeat, an automatic repeat, an area alone, after the grid; or it is a gutter.
#[derive(Clone, Copy, Debug, PartialEq, Eq, Default)]
pub enum TrackSource {
    #[default]
    Negative,
    Template,
    Automatic,
    Area,
    Positive,
    Gutter,
}

// A track record. A collapsed one has both sizes length 0, and keeps its source.
#[derive(Clone, Copy, Debug, PartialEq, Default)]
pub struct GridTrack {
    pub kind: GridTrackKind,
    pub collapsed: bool,
    pub source: TrackSource,
    pub size: MinMax,
}

// A track as it is written out, before any collapses, and whether `fit` wrote it.
#[derive(Clone, Copy, Debug, PartialEq)]
pub struct WrittenTrack {
    pub size: MinMax,
    pub source: TrackSource,
    pub fit: bool,
}

// What is known of the tracks of an axis before they are written out.
#[derive(Clone, Copy, Debug, PartialEq)]
pub struct AxisTracks {
    pub counts: TrackCounts,
    pub repetitions: u32,
    pub gap: Sizing,
}

// A component of a template, and which of the tracks that it writes.
#[derive(Clone, Copy, Debug, PartialEq, Eq)]
pub struct Cursor {
    pub component: usize,
    pub offset: u64,
}

// The explicit tracks that the template writes, and one past the last open track.
#[derive(Clone, Copy, Debug, PartialEq, Eq)]
pub struct Plan {
    pub written: u32,
    pub opened: u64,
}

// What is carried from record to record of an axis: its plan, and the cursor that belongs to the next record.
#[derive(Clone, Copy, Debug, PartialEq)]
pub struct TrackWalk {
    pub axis: AxisTracks,
    pub plan: Plan,
    pub cursor: Cursor,
}
