// The places of a placement.
ghost use Rattle.std.specs.Prelude.{◌≡◌};
ghost use Rattle.placement_hits.specs.Steps.{ordered_places, both_places, end_of, end_place, ends_by, occupied_of};

use crate::place::line_place;
use crate::{Ends, SettledEnd};
use coordinates::LinePair;
use std::cmp::Ordering;
use track_counts::counts::TrackCounts;

// Two lines in their order: reversed ones are swapped, equal ones span one track, which has to lie before the last line.
#[tactic(auto, unfolding(crate::specs::Steps::ordered_places))]
pub fn ordered(last: u32, start: u32, end: u32) -> Option<LinePair>
    ensures { result ≡ ordered_places last start end }
{
    match start.cmp(&end) {
        Ordering::Less => Some(LinePair { start, end }),
        Ordering::Greater => Some(LinePair {
            start: end,
            end: start,
        }),
        Ordering::Equal => (start < last).then_some(LinePair {
            start,
            end: start.saturating_add(1),
        }),
    }
}

// The same where both ends have a place.
fn both_places(last: u32, start: Option<u32>, end: Option<u32>) -> Option<LinePair>
    ensures { result ≡ both_places last start end }
{
    ordered(last, start?, end?)
}

// The place of an end; one that is no line has none.
fn end_place(counts: TrackCounts, end: SettledEnd) -> Option<u32>
    ensures { result ≡ end_place counts (end_of end) }
{
    match end {
        SettledEnd::Line(number) => line_place(counts, number),
        SettledEnd::Auto | SettledEnd::Span(_) => None,
    }
}

// The places of the lines between which a settled placement lies, counted from 0 at the grid's first.
#[tactic(auto, unfolding(crate::specs::Steps::occupied_of))]
pub fn occupied(counts: TrackCounts, ends: Ends) -> Option<LinePair>
    ensures { result ≡ occupied_of counts (ends_by ends) }
{
    let start = end_place(counts, ends.start);
    let end = end_place(counts, ends.end);
    both_places(counts.tracks(), start, end)
}
