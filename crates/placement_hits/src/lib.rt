// Document 02, Req 01: which of a run of settled placements lie within a span of lines, or around a line; by places of lines alone.

#![tactic(auto)]

pub mod list;
pub mod member;
pub mod occupied;
pub mod place;

use coordinates::{GenericGridPlacement, Line};
use track_counts::counts::TrackCounts;

// An end of a settled placement: auto, a grid line, or a span.
pub type SettledEnd = GenericGridPlacement<i32, i32>;

// Both ends of a settled placement.
pub type Ends = Line<SettledEnd>;

// What is asked of a placement: both of its places from the first number on and before the second; or a place, where there is one, strictly between them.
#[derive(Clone, Copy, Debug, PartialEq, Eq)]
pub enum Question {
    Within(u32, u32),
    Around(Option<u32>),
}

// What is asked of a run of placements: of those with that number for their axis, whose tracks are counted.
#[derive(Clone, Copy, Debug, PartialEq, Eq)]
pub struct Asked {
    pub axis: i32,
    pub counts: TrackCounts,
    pub question: Question,
}
