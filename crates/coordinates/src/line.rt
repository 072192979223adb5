// Lines in the two numberings, and what a line asks of the grid.
ghost use Rattle.std.specs.Prelude.{◌≡◌, false, ltb};
ghost use Rattle.coordinates.specs.Lines.{outside};
ghost use Rattle.coordinates.specs.Held.{HeldAs};
ghost use Rattle.coordinates.specs.Ends.{end_kind, end_number};
ghost use Rattle.coordinates.specs.Answers.{count_check, clamped_of, answered_conversion, origin_zero_answer, answered_grid_line, grid_line_answer, answered_count, implied_negative_answer, implied_positive_answer};

use crate::refusal::{Fault, check_count};

// The most explicit tracks.
pub const MOST_TRACKS: u16 = 10000;

// The last line that can be explicit, after as many tracks.
pub const LAST_EXPLICIT_LINE: u32 = MOST_TRACKS as u32 + 1;

// The line that is farthest from the first explicit one, at either side.
pub const FARTHEST_LINE: i64 = 10000;

// A grid line as CSS numbers them: 1 at the start edge, -1 at the end edge. There is no line 0.
#[derive(Clone, Copy, Debug, PartialEq, Eq)]
pub struct GridLine(pub i16);

// An origin-zero line: 0 at the first explicit line.
#[derive(Clone, Copy, Debug, PartialEq, Eq)]
pub struct OriginZeroLine(pub i16);

// What an axis has at a start and at an end.
#[derive(Clone, Copy, Debug, PartialEq, Eq)]
pub struct Line<T> {
    pub start: T,
    pub end: T,
}

// Two lines of an axis: the tracks between them.
pub type LinePair = Line<u32>;

// A value, and its mark: whether a step on the way to it was held at an end.
#[derive(Clone, Copy, Debug, PartialEq, Eq)]
pub struct Marked<T> {
    pub value: T,
    pub held: bool,
}

// An origin-zero line, and whether it was held at an end.
pub type MarkedLine = Marked<OriginZeroLine>;

// An end of a placement without a name: auto, a line, or a span.
#[derive(Clone, Copy, Debug, PartialEq, Eq)]
pub enum GenericGridPlacement<L, S> {
    Auto,
    Line(L),
    Span(S),
}

impl<T> Marked<T> {
    // A value with no mark.
    pub fn unmarked(value: T) -> Marked<T>
        ensures value { result.value ≡ value }
        ensures held { result.held ≡ false }
    {
        Marked { value, held: false }
    }
}

impl GenericGridPlacement<GridLine, u16> {
    // The number of its kind: 0 where it is auto, 1 for a line, 3 for a span; 2 and 4 are kinds with a name.
    pub fn kind(self) -> u32
        ensures { result ≡ end_kind self }
    {
        match self {
            GenericGridPlacement::Auto => 0,
            GenericGridPlacement::Line(_) => 1,
            GenericGridPlacement::Span(_) => 3,
        }
    }

    // Its number: the line or the span, 0 where it is auto.
    pub fn number(self) -> i32
        ensures { result ≡ end_number self }
    {
        match self {
            GenericGridPlacement::Auto => 0,
            GenericGridPlacement::Line(line) => i32::from(line.0),
            GenericGridPlacement::Span(span) => i32::from(span),
        }
    }
}

// Whether a number lies outside -10,000..10,000.
#[tactic(auto, using(crate::proofs::Integers::outside_by_size))]
fn lies_outside(number: i64) -> bool
    ensures { result ≡ outside number }
{
    FARTHEST_LINE.unsigned_abs() < number.unsigned_abs()
}

// Refused by 4: more than 10,000 explicit tracks.
pub fn check_explicit(explicit: u32) -> Result<(), Fault>
    ensures { result ≡ count_check (ltb 10000 explicit) }
{
    check_count(LAST_EXPLICIT_LINE <= explicit)
}

impl GridLine {
    // The origin-zero line, held, with its mark. Refused: more than 10,000 explicit tracks (4), and then line 0 (9).
    #[tactic(auto, unfolding(crate::specs::Answers::origin_zero_answer))]
    pub fn into_origin_zero_line(self, explicit: u16) -> Result<MarkedLine, Fault>
        ensures { answered_conversion result ≡ origin_zero_answer explicit self.0 }
    {
        check_explicit(u32::from(explicit))?;
        let number = i64::from(self.0);
        match number {
            0 => Err(Fault::ZeroLine),
            1.. => Ok(OriginZeroLine::hold(number - 1)),
            _ => Ok(OriginZeroLine::hold(number + i64::from(explicit) + 1)),
        }
    }
}

impl OriginZeroLine {
    // The line of a number, held within -10,000..10,000, with its mark.
    pub fn hold(number: i64) -> MarkedLine
        ensures { HeldAs number result }
    {
        Marked {
            value: OriginZeroLine(number.clamp(-FARTHEST_LINE, FARTHEST_LINE) as i16),
            held: lies_outside(number),
        }
    }

    // The line of a number, held within -10,000..10,000.
    pub fn clamped(line: i32) -> OriginZeroLine
        ensures { result ≡ clamped_of line }
    {
        OriginZeroLine::hold(i64::from(line)).value
    }

    // Whether a line lies outside -10,000..10,000.
    pub fn is_outside(self) -> bool
        ensures { result ≡ outside self.0 }
    {
        lies_outside(i64::from(self.0))
    }

    // Refused by 4: a line outside -10,000..10,000.
    pub fn check_within(self) -> Result<(), Fault>
        ensures { result ≡ count_check (outside self.0) }
    {
        check_count(self.is_outside())
    }

    // The grid line. Refused by 4: more than 10,000 explicit tracks, and a line outside -10,000..10,000.
    #[tactic(auto, unfolding(crate::specs::Answers::grid_line_answer))]
    pub fn into_grid_line(self, explicit: u16) -> Result<GridLine, Fault>
        ensures { answered_grid_line result ≡ grid_line_answer explicit self.0 }
    {
        check_explicit(u32::from(explicit))?;
        self.check_within()?;
        let line = i32::from(self.0);
        let number = if line < 0 {
            line - i32::from(explicit) - 1
        } else {
            line + 1
        };
        Ok(GridLine(number as i16))
    }

    // The tracks there must be before the grid if an item starts at this line. Refused by 4: a line outside -10,000..10,000.
    #[tactic(auto, unfolding(crate::specs::Answers::implied_negative_answer))]
    pub fn implied_negative_implicit_tracks(self) -> Result<u32, Fault>
        ensures { answered_count result ≡ implied_negative_answer self.0 }
    {
        self.check_within()?;
        Ok(self.0.min(0).unsigned_abs().into())
    }

    // The tracks there must be after the grid if an item ends at this line. Refused by 4: more than 10,000 explicit tracks, and a
    // line outside -10,000..10,000.
    #[tactic(auto, unfolding(crate::specs::Answers::implied_positive_answer))]
    pub fn implied_positive_implicit_tracks(self, explicit: u16) -> Result<u32, Fault>
        ensures { answered_count result ≡ implied_positive_answer explicit self.0 }
    {
        check_explicit(u32::from(explicit))?;
        self.check_within()?;
        let past = i32::from(self.0) - i32::from(explicit);
        Ok(past.max(0).unsigned_abs())
    }
}
