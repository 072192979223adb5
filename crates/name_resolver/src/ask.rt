// What an end of a placement asks for.
ghost use Rattle.coordinates.specs.Answers.{answered_conversion};
ghost use Rattle.name_lines.specs.Areas.{side_of};
ghost use Rattle.name_resolver.specs.Counts.{LineFits};
ghost use Rattle.name_resolver.specs.Steps.{count_question, index_edge, named_question, question_back, question_of, span_question, written_end};
ghost use Rattle.std.specs.Prelude.{◌≡◌};

use crate::count::Count;
use crate::found::end_on_line;
use crate::{Asked, End, GridPlacement, Name, NonNamedGridPlacement, Question, ResolvedEnd, count};
use coordinates::{Fault, GridLine, Marked, MarkedLine, OriginZeroLine};
use name_lines::{GridAreaEnd, NthLine, Way};

// The origin-zero line of a conversion, with its mark: 0 without one where it is refused.
fn converted_line(answer: Result<MarkedLine, Fault>) -> MarkedLine
    ensures line { result.value ≡ (answered_conversion answer).line }
    ensures held { result.held ≡ (answered_conversion answer).held }
{
    answer.unwrap_or(Marked::unmarked(OriginZeroLine(0)))
}

// A written line as it stands, with the mark of its conversion.
fn written_end(explicit: u16, line: GridLine) -> ResolvedEnd
    ensures { result ≡ written_end explicit line }
{
    Marked {
        value: NonNamedGridPlacement::Line(line),
        held: converted_line(line.into_origin_zero_line(explicit)).held,
    }
}

// The edge of an area that a name with that index asks for first.
fn edge_of_index(index: i16, side: GridAreaEnd) -> Option<GridAreaEnd>
    ensures { result ≡ index_edge index (side_of side) }
{
    (index == 0).then_some(side)
}

// A name whose lines are counted on an axis with so many explicit tracks; whether a line before was held.
#[derive(Clone, Copy)]
struct Counted {
    explicit: u16,
    name: Name,
    held: bool,
}

impl Counted {
    // The question of a count back: a line before the first is counted to without a search.
    fn question_back(self, last: i64, over: u32) -> Asked
        requires { LineFits last }
        ensures { result ≡ question_back self.explicit self.name last over self.held }
    {
        match u32::try_from(last) {
            Ok(line) => Asked::Line(Question {
                name: self.name,
                edge: None,
                nth: NthLine {
                    way: Way::Down,
                    from: count::explicit_end(self.explicit, line),
                    over,
                },
                held: self.held,
            }),
            Err(_) => {
                let line = OriginZeroLine::hold(last - i64::from(over));
                Asked::Resolved(end_on_line(self.explicit, self.held, line))
            }
        }
    }

    // The question of a count of the name's lines.
    fn question(self, edge: Option<GridAreaEnd>, count: Count) -> Asked
        requires { LineFits count.first }
        ensures { result ≡ count_question self.explicit self.name edge count self.held }
    {
        match count.way {
            Way::Up => Asked::Line(Question {
                name: self.name,
                edge,
                nth: NthLine {
                    way: Way::Up,
                    from: count::first_line(count.first),
                    over: count.over,
                },
                held: self.held,
            }),
            Way::Down => self.question_back(count.first, count.over),
        }
    }
}

// What a name with an index asks for.
fn named_question(explicit: u16, name: Name, index: i16, side: GridAreaEnd) -> Asked
    ensures { result ≡ named_question explicit name index (side_of side) }
{
    let counted = Counted {
        explicit,
        name,
        held: false,
    };
    let count = Count::of_index(i64::from(index), explicit);
    counted.question(edge_of_index(index, side), count)
}

// What a span of a name asks for beside a grid line, which is held first and whose mark it takes over: span 1 where that is 0.
fn span_question(
    explicit: u16,
    name: Name,
    span: u16,
    side: GridAreaEnd,
    beside: Marked<GridLine>,
) -> Asked
    ensures { result ≡ span_question explicit name span (side_of side) beside.value.0 beside.held }
{
    if beside.value.0 == 0 {
        return Asked::Resolved(Marked::unmarked(NonNamedGridPlacement::Span(1)));
    }
    let line = converted_line(beside.value.into_origin_zero_line(explicit)).value;
    let counted = Counted {
        explicit,
        name,
        held: beside.held,
    };
    counted.question(None, Count::of_span(span, line, side))
}

// What an end asks for. Written lines and plain spans pass through.
#[tactic(auto, unfolding(crate::specs::Steps::question_of))]
pub fn question_of(explicit: u16, end: End) -> Asked
    ensures { result ≡ question_of explicit end }
{
    match end.placement {
        GridPlacement::Auto => Asked::Resolved(Marked::unmarked(NonNamedGridPlacement::Auto)),
        GridPlacement::Line(written) => Asked::Resolved(written_end(explicit, written)),
        GridPlacement::NamedLine(name, index) => named_question(explicit, name, index, end.side),
        GridPlacement::Span(span) => {
            Asked::Resolved(Marked::unmarked(NonNamedGridPlacement::Span(span)))
        }
        GridPlacement::NamedSpan(name, span) => {
            span_question(explicit, name, span, end.side, end.beside)
        }
    }
}
