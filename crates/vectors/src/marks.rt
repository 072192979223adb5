// The marks of a panel's placements beside the expected text: a line for each but the halves of cells, `held`, its axis, and `y` or `n` for
// its start and its end.
use crate::expected::Expected;
use crate::tables::Shown;
use coordinates::Fault;
use name_resolver::HeldEnds;
use panel_resolving::placing::resolve_placement;
use panel_rules::PlacedLine;

// One mark.
fn seen_mark(expected: Expected, held: bool) -> Expected {
    if held {
        return expected.part(b"\ty");
    }
    expected.part(b"\tn")
}

// The marks of both ends, and the end of the line.
pub fn seen_held<'a>(expected: Expected<'a>, held: HeldEnds) -> Expected<'a> {
    seen_mark(seen_mark(expected, held.start), held.end).part(b"\n")
}

// The line of a placement that is resolved.
fn seen_placed<'a>(expected: Expected<'a>, answer: PlacedLine) -> Expected<'a> {
    let head = expected.part(b"held\t").axis(answer.axis);
    seen_held(head, answer.placed.held)
}

// The line of a placement, none for a cell's half; of one that is refused the columns and no marks.
fn seen_line<'a>(expected: Expected<'a>, answer: Result<PlacedLine, Fault>) -> Expected<'a> {
    match answer {
        Ok(placed) if placed.cell => expected,
        Ok(placed) => seen_placed(expected, placed),
        Err(_) => expected.part(b"held\tc\tn\tn\n"),
    }
}

// The lines of all placements.
pub fn seen_marks<'a>(expected: Expected<'a>, shown: Shown) -> Expected<'a> {
    let mut seen = expected;
    for index in 0..shown.grid.placements {
        seen = seen_line(seen, resolve_placement(shown.grid, shown.lent, index));
    }
    seen
}
