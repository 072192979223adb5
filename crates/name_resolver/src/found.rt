// The line that answers a question.
ghost use Rattle.coordinates.specs.Held.{HeldAs};
ghost use Rattle.coordinates.specs.Answers.{grid_line_answer};
ghost use Rattle.name_lines.specs.Marks.{seek_of};
ghost use Rattle.name_resolver.specs.Steps.{end_on_held, found_end, line_found};
ghost use Rattle.std.specs.Prelude.{◌≡◌};

use crate::{NonNamedGridPlacement, Question, ResolvedEnd, count};
use coordinates::{GridLine, Marked, MarkedLine, OriginZeroLine};
use name_lines::Way;

// An origin-zero line as a grid line; line 0, which is none, where the conversion is refused.
fn grid_line(line: OriginZeroLine, explicit: u16) -> GridLine
    ensures { result ≡ (grid_line_answer explicit line.0).line }
{
    line.into_grid_line(explicit).unwrap_or(GridLine(0))
}

// The end on a line that is held; it is marked where that was held, or a line before it.
pub(crate) fn end_on_line(explicit: u16, before: bool, line: MarkedLine) -> ResolvedEnd
    ensures { result ≡ end_on_held explicit before line }
{
    Marked {
        value: NonNamedGridPlacement::Line(grid_line(line.value, explicit)),
        held: before || line.held,
    }
}

// The line that a search came to, missing lines counted on past the explicit grid or before it, held, with its mark.
fn line_found(explicit: u16, question: Question, found: Result<u32, u32>) -> MarkedLine
    ensures { HeldAs (line_found explicit question.nth.way question.nth.from (seek_of found)) result }
{
    match question.nth.way {
        Way::Up => count::line_forwards(explicit, question.nth.from, found),
        Way::Down => count::line_backwards(found),
    }
}

// The end that a search resolves.
#[tactic(auto, unfolding(crate::specs::Steps::found_end), using(crate::proofs::Integers::end_held))]
pub fn found_end(explicit: u16, question: Question, found: Result<u32, u32>) -> ResolvedEnd
    ensures { result ≡ found_end explicit question (seek_of found) }
{
    let line = line_found(explicit, question, found);
    end_on_line(explicit, question.held, line)
}
