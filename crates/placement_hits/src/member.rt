// Whether a placement is in a list.
ghost use Rattle.std.specs.Prelude.{◌≡◌, length};
ghost use Rattle.placement_hits.specs.Steps.{answers, within_places, around_place, end_by, end_of, ends_at, ends_by, is_hit, asked_of};

use crate::occupied::occupied;
use crate::{Asked, Ends, Question, SettledEnd};
use coordinates::{Axis, Line, LinePair};
use track_counts::TrackCounts;

// The kinds of an end that is a line, and of one that is a span.
const LINE: i32 = 1;

const SPAN: i32 = 3;

// Both places from `below` on and before `upto`.
pub fn is_within(places: Option<LinePair>, below: u32, upto: u32) -> bool
    ensures { result ≡ within_places below upto places }
{
    places.is_some_and(|own| below <= own.start && own.end < upto)
}

// A place, where there is one, strictly between them.
pub fn is_around(places: Option<LinePair>, place: Option<u32>) -> bool
    ensures { result ≡ around_place place places }
{
    place
        .zip(places)
        .is_some_and(|(line, own)| own.start < line && line < own.end)
}

// Whether what is asked holds of the places of a placement.
#[tactic(auto, unfolding(crate::specs::Steps::answers))]
fn answers(question: Question, places: Option<LinePair>) -> bool
    ensures { result ≡ answers question places }
{
    match question {
        Question::Within(below, upto) => is_within(places, below, upto),
        Question::Around(place) => is_around(places, place),
    }
}

// An end of a settled placement, by its kind and number.
pub fn settled_end(kind: i32, number: i32) -> SettledEnd
    ensures { end_of result ≡ end_by kind number }
{
    match kind {
        LINE => SettledEnd::Line(number),
        SPAN => SettledEnd::Span(number),
        _ => SettledEnd::Auto,
    }
}

impl Asked {
    // What is asked of the placements of an axis: a run has the number 0 for the columns and 1 for the rows.
    pub fn of_axis(axis: Axis, counts: TrackCounts, question: Question) -> Asked
        ensures { result ≡ asked_of axis counts question }
    {
        Asked {
            axis: axis as i32,
            counts,
            question,
        }
    }
}

// A placement of a run, by its numbers.
#[derive(Clone, Copy)]
pub(crate) struct Placement<'a> {
    pub numbers: &'a [i32],
    ghost whole: { length numbers.now ≡ 8 },
}

impl Placement<'_> {
    // Both ends.
    #[tactic(auto, unfolding(crate::specs::Steps::ends_at))]
    fn ends(self) -> Ends
        ensures { ends_by result ≡ ends_at self.entry.numbers.now 0 }
    {
        Line {
            start: settled_end(self.numbers[2], self.numbers[3]),
            end: settled_end(self.numbers[4], self.numbers[5]),
        }
    }

    // Whether it is one of the axis, and what is asked holds of it.
    #[tactic(auto, unfolding(crate::specs::Steps::is_hit))]
    pub(crate) fn is_hit(self, asked: Asked) -> bool
        ensures { result ≡ is_hit asked self.entry.numbers.now 0 }
    {
        let axis = self.numbers[1];
        axis == asked.axis && answers(asked.question, occupied(asked.counts, self.ends()))
    }
}
