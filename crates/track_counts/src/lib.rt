// The tracks of an axis as counts, the conversions between lines and tracks that depend on them, and the tracks between two lines.

#![tactic(auto)]

pub mod counts;
pub mod span;

pub use counts::TrackCounts;
pub use span::{OriginZeroLines, tracks_between};
