// The conversions between lines and tracks that depend on the counts of an axis.
ghost use Rattle.std.specs.Prelude.{◌≡◌, true, MatchResult};
ghost use Rattle.coordinates.specs.Answers.{answered_line};
ghost use Rattle.coordinates.specs.declared.refusal.Fault.TheVariants.{Count};
ghost use Rattle.track_counts.specs.Counts.{too_many, answered_track, next_track_answer, previous_line_answer, answered_index, vec_index_answer};
ghost use Rattle.library_lines.specs.Numbers.{counts_of};

use crate::AxisCounts;
use crate::number::{count_number, line_number};
use coordinates::{Fault, OriginZeroLine};
use track_counts::TrackCounts;
use track_counts::counts::try_into_track_vec_index;

// The counts of an axis. Refused by 4, as the calls below: a count above 65,535, and there one above 10,000.
fn track_counts(counts: AxisCounts) -> Result<TrackCounts, Fault>
    ensures { MatchResult result (λ own. own ≡ counts_of counts) (λ fault. (fault ≡ Count) × (too_many (counts_of counts) ≡ true)) }
{
    Ok(TrackCounts {
        negative_implicit: count_number(counts.negative)?,
        explicit: count_number(counts.explicit)?,
        positive_implicit: count_number(counts.positive)?,
    })
}

// The track after a line. Refused by 4 too: a line outside -10,000..10,000.
#[tactic(auto, using(crate::proofs::Refused::wide_track, crate::proofs::Refused::many_track))]
pub fn next_track(counts: AxisCounts, line: i32) -> Result<i16, Fault>
    ensures { answered_track result ≡ next_track_answer (counts_of counts) line }
{
    let line = OriginZeroLine(line_number(line)?);
    track_counts(counts)?.oz_line_to_next_track(line)
}

// The line before a track. Refused by 4 too: a track above 30,000.
#[tactic(auto, using(crate::proofs::Refused::far_line, crate::proofs::Refused::many_line))]
pub fn previous_line(counts: AxisCounts, track: u32) -> Result<OriginZeroLine, Fault>
    ensures { answered_line result ≡ previous_line_answer (counts_of counts) track }
{
    let track = count_number(track)?;
    track_counts(counts)?.track_to_prev_oz_line(track)
}

// The place of a line's gutter among the records of an axis, where the axis has the line. Refused by 4 too: a line outside -10,000..10,000.
#[tactic(auto, using(crate::proofs::Refused::wide_record, crate::proofs::Refused::many_record))]
pub fn line_record(counts: AxisCounts, line: i32) -> Result<Option<u32>, Fault>
    ensures { answered_index result ≡ vec_index_answer (counts_of counts) line }
{
    let line = OriginZeroLine(line_number(line)?);
    try_into_track_vec_index(line, track_counts(counts)?)
}
