// The tracks of an axis as counts, and the conversions between lines and tracks that depend on them.
ghost use Rattle.std.specs.Prelude.{◌≡◌};
ghost use Rattle.coordinates.specs.Answers.{count_check, answered_line, answered_count};
ghost use Rattle.track_counts.specs.Counts.{too_many, tracks_of, length_answer, start_answer, end_answer, answered_track, next_track_answer, previous_line_answer, answered_index, vec_index_answer};

use coordinates::line::MOST_TRACKS;
use coordinates::{Fault, OriginZeroLine, check_count};

// How many tracks lie before the explicit grid, in it, and after it.
#[derive(Clone, Copy, Debug, PartialEq, Eq)]
pub struct TrackCounts {
    pub negative_implicit: u16,
    pub explicit: u16,
    pub positive_implicit: u16,
}

// The most tracks of an axis: those before the explicit grid, in it, and after it.
pub const MOST_AXIS_TRACKS: u16 = 3 * MOST_TRACKS;

impl TrackCounts {
    // Whether one of the counts is above 10,000.
    pub fn too_many(self) -> bool
        ensures { result ≡ too_many self }
    {
        MOST_TRACKS < self.negative_implicit
            || MOST_TRACKS < self.explicit
            || MOST_TRACKS < self.positive_implicit
    }

    // Refused by 4: a count above 10,000.
    pub fn check(self) -> Result<(), Fault>
        ensures { result ≡ count_check (too_many self) }
    {
        check_count(self.too_many())
    }

    // How many tracks there are.
    pub fn tracks(self) -> u32
        ensures { result ≡ tracks_of self }
    {
        u32::from(self.negative_implicit)
            + u32::from(self.explicit)
            + u32::from(self.positive_implicit)
    }

    // All tracks of the axis. Refused by 4, as the calls below: a count above 10,000.
    #[tactic(auto, unfolding(crate::specs::Counts::length_answer))]
    pub fn len(self) -> Result<u32, Fault>
        ensures { answered_count result ≡ length_answer self }
    {
        self.check()?;
        Ok(self.tracks())
    }

    // The line at which the implicit grid starts.
    #[tactic(auto, unfolding(crate::specs::Counts::start_answer))]
    pub fn implicit_start_line(self) -> Result<OriginZeroLine, Fault>
        ensures { answered_line result ≡ start_answer self }
    {
        self.check()?;
        Ok(OriginZeroLine(-(self.negative_implicit as i16)))
    }

    // The line at which the implicit grid ends.
    #[tactic(auto, unfolding(crate::specs::Counts::end_answer))]
    pub fn implicit_end_line(self) -> Result<OriginZeroLine, Fault>
        ensures { answered_line result ≡ end_answer self }
    {
        self.check()?;
        Ok(OriginZeroLine((self.explicit + self.positive_implicit) as i16))
    }

    // The track after a line. Refused by 4 too: a line outside -10,000..10,000.
    #[tactic(auto, unfolding(crate::specs::Counts::next_track_answer))]
    pub fn oz_line_to_next_track(self, index: OriginZeroLine) -> Result<i16, Fault>
        ensures { answered_track result ≡ next_track_answer self index.0 }
    {
        self.check()?;
        index.check_within()?;
        Ok(index.0 + self.negative_implicit as i16)
    }

    // The line before a track. Refused by 4 too: an index above 30,000.
    #[tactic(auto, unfolding(crate::specs::Counts::previous_line_answer))]
    pub fn track_to_prev_oz_line(self, index: u16) -> Result<OriginZeroLine, Fault>
        ensures { answered_line result ≡ previous_line_answer self index }
    {
        self.check()?;
        check_count(MOST_AXIS_TRACKS < index)?;
        Ok(OriginZeroLine(index as i16 - self.negative_implicit as i16))
    }
}

// The place of a line's gutter among the records of an axis. Refused by 4: a count above 10,000, a line outside -10,000..10,000.
#[tactic(auto, unfolding(crate::specs::Counts::vec_index_answer))]
pub fn try_into_track_vec_index(
    line: OriginZeroLine,
    counts: TrackCounts,
) -> Result<Option<u32>, Fault>
    ensures { answered_index result ≡ vec_index_answer counts line.0 }
{
    counts.check()?;
    line.check_within()?;
    let distance = i32::from(line.0) + i32::from(counts.negative_implicit);
    Ok(match u32::try_from(distance) {
        Ok(distance) if distance <= counts.tracks() => Some(2 * distance),
        _ => None,
    })
}
