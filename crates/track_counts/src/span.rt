// Two lines of an axis, and the tracks between them.
ghost use Rattle.std.specs.Prelude.{◌≡◌};
ghost use Rattle.coordinates.specs.Answers.{answered_count};
ghost use Rattle.track_counts.specs.Spans.{span_answer};

use coordinates::{Fault, Line, OriginZeroLine};

// The lines at which an item starts and ends.
pub type OriginZeroLines = Line<OriginZeroLine>;

// The number of tracks between the lines. Refused by 4: a line outside -10,000..10,000.
#[tactic(auto, unfolding(crate::specs::Spans::span_answer))]
pub fn tracks_between(lines: OriginZeroLines) -> Result<u32, Fault>
    ensures { answered_count result ≡ span_answer lines.start.0 lines.end.0 }
{
    lines.start.check_within()?;
    lines.end.check_within()?;
    let tracks = i32::from(lines.end.0) - i32::from(lines.start.0);
    Ok(tracks.max(0).unsigned_abs())
}
