// The two ends of a placement: a named span asks after the other end has its line.
ghost use Rattle.name_resolver.specs.Placements.{answered_resolution};
ghost use Rattle.name_resolver.specs.Steps.{both_ends, end_at, first_end, is_named_span, line_of_end, resolved_ends_in, second_end};
ghost use Rattle.std.specs.Prelude.{◌≡◌, Ok};

use crate::{
    End, GridPlacement, NonNamedGridPlacement, ResolvedEnd, ResolvedPlacement, WrittenLine,
};
use coordinates::{GridLine, Line, Marked};
use name_lines::GridAreaEnd;

// Whether an end is a span of a name.
fn is_named_span(placement: GridPlacement) -> bool
    ensures { result ≡ is_named_span placement }
{
    matches!(placement, GridPlacement::NamedSpan(_, _))
}

// The grid line that a resolved end has, 0 where it has none.
fn resolved_line(end: NonNamedGridPlacement) -> GridLine
    ensures { result ≡ line_of_end end }
{
    match end {
        NonNamedGridPlacement::Line(line) => line,
        NonNamedGridPlacement::Auto | NonNamedGridPlacement::Span(_) => GridLine(0),
    }
}

// An end of a placement, beside a grid line and its mark.
fn end_at(line: WrittenLine, side: GridAreaEnd, beside: Marked<GridLine>) -> End
    ensures { result ≡ end_at line side beside }
{
    let placement = match side {
        GridAreaEnd::Start => line.start,
        GridAreaEnd::End => line.end,
    };
    End {
        placement,
        side,
        beside,
    }
}

// The end that is resolved first: the start, but the end where the start is a span of a name.
#[tactic(auto, unfolding(crate::specs::Steps::first_end))]
pub fn first_end(line: WrittenLine) -> End
    ensures { result ≡ first_end line }
{
    let beside = Marked::unmarked(GridLine(0));
    if is_named_span(line.start) {
        return end_at(line, GridAreaEnd::End, beside);
    }
    end_at(line, GridAreaEnd::Start, beside)
}

// The other end, beside the line of the first and its mark.
#[tactic(auto, unfolding(crate::specs::Steps::second_end))]
pub fn second_end(line: WrittenLine, first: ResolvedEnd) -> End
    ensures { result ≡ second_end line first }
{
    let beside = Marked {
        value: resolved_line(first.value),
        held: first.held,
    };
    if is_named_span(line.start) {
        return end_at(line, GridAreaEnd::Start, beside);
    }
    end_at(line, GridAreaEnd::End, beside)
}

// A start and an end, each with its mark.
fn both_ends(start: ResolvedEnd, end: ResolvedEnd) -> ResolvedPlacement
    ensures { answered_resolution (Ok result) ≡ both_ends start end }
{
    ResolvedPlacement {
        line: Line {
            start: start.value,
            end: end.value,
        },
        held: Line {
            start: start.held,
            end: end.held,
        },
    }
}

// Both ends in their places.
#[tactic(auto, unfolding(crate::specs::Steps::resolved_ends_in))]
pub fn resolved_ends(
    line: WrittenLine,
    first: ResolvedEnd,
    second: ResolvedEnd,
) -> ResolvedPlacement
    ensures { answered_resolution (Ok result) ≡ resolved_ends_in line first second }
{
    if is_named_span(line.start) {
        return both_ends(second, first);
    }
    both_ends(first, second)
}
