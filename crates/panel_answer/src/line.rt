// One line of an answer, and the line after it.
ghost use Rattle.std.specs.Prelude.{◌≡◌};
ghost use Rattle.panel_tables.specs.Regions.{axis_words_in, marks_in};
ghost use Rattle.panel_text.specs.Lines.{refused_line};
ghost use Rattle.panel_text.specs.Written.{WritesLine};
ghost use Rattle.panel_answer.specs.Answer.{held_with};
ghost use Rattle.panel_answer.specs.Listed.{answered_next, told_refusal};
ghost use Rattle.panel_answer.specs.Walk.{line_text, next_line};
ghost use Rattle.coordinates.specs.declared.axis.Axis.TheVariants.{Column, Row};

use crate::{AnswerLine, LineRefusal, axis, place};
use cell_placing::MOST_PLACED;
use panel_tables::{Grid, LentPanel};

// The line of a refusal.
fn put_refused(out: &mut [u8], refusal: LineRefusal) -> usize
    ensures { WritesLine out.old (refused_line (told_refusal refusal)) out.new result }
{
    panel_text::refused_line(out, refusal.number, refusal.line)
}

// Writes a line at the start of lent bytes and answers its length: nothing, and 0, at the end.
pub fn put_line(
    out: &mut [u8],
    grid: Grid,
    lent: LentPanel,
    lands: &[u64; MOST_PLACED],
    at: Option<AnswerLine>,
) -> usize
    ensures { WritesLine out.old (line_text (held_with grid lent.entry lands.now) (answered_next at)) out.new result }
{
    let Some(line) = at else {
        return 0;
    };
    match line {
        AnswerLine::Refused(refusal) => put_refused(out, refusal),
        AnswerLine::Size(axis) => axis::put_size(out, grid, axis),
        AnswerLine::Record(axis, index, state) => {
            let lent = axis::lent_on(grid, lent.words, lent.bytes, axis);
            axis::put_record(out, lent, index, state)
        }
        AnswerLine::Place(index) => place::put_place(out, grid, lent, index),
        AnswerLine::Cell(index) => place::put_cell(out, lands, index),
    }
}

// The line after a line, where one is left: none after the end.
pub fn next_line(grid: Grid, lent: LentPanel, at: Option<AnswerLine>) -> Option<AnswerLine>
    ensures { answered_next result ≡ next_line grid (axis_words_in Column lent.entry.words.now) (axis_words_in Row lent.entry.words.now) (marks_in Column lent.entry.bytes.now) (marks_in Row lent.entry.bytes.now) (answered_next at) }
{
    let Some(line) = at else {
        return None;
    };
    match line {
        AnswerLine::Refused(_) => None,
        AnswerLine::Size(axis) => {
            let lent = axis::lent_on(grid, lent.words, lent.bytes, axis);
            Some(axis::first_record(lent, axis))
        }
        AnswerLine::Record(axis, index, state) => {
            let lent = axis::lent_on(grid, lent.words, lent.bytes, axis);
            axis::next_record(grid, lent, axis, index, state)
        }
        AnswerLine::Place(index) => place::place_from(grid, index as u64 + 1),
        AnswerLine::Cell(index) => place::cell_from(grid, index as u64 + 1),
    }
}
