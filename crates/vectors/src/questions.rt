// Questions to a panel, each a line: its word, its axis, and what it asks.
ghost use Rattle.std.specs.Prelude.{◌≤◌};

use crate::cells::{packing_of, seen_cells};
use crate::expected::Expected;
use crate::hits::{ListLengths, Listed, seen_list};
use crate::input::{Lines, axis_of, bits_of, field, line_of, number_of};
use crate::nearest::{Cursor, seen_nearest};
use crate::resizes::seen_resize;
use crate::settled::{CellHalf, seen_settled};
use crate::tables::{Shown, StoreLengths};
use crate::trials::{TriedName, seen_trial};
use cell_placing::Packing;
use coordinates::Axis;
use line_positions::Span;
use panel_hits::{Around, AxisSpan};
use text::LINE_FEED;

// What a line asks: the line nearest to a cursor, the least resize of an axis, the placements within a span or around a line, where the cells
// land, the settled ends of a cell, or what a name that is tried would give.
#[derive(Clone, Copy, Debug, PartialEq, Eq)]
enum Question<'a> {
    Nearest(Cursor),
    Resize(Axis),
    List(Listed, ListLengths),
    Cells(Packing, StoreLengths),
    Settled(CellHalf),
    Try(TriedName<'a>),
}

// The lengths that a list is asked with, from a field on.
fn lengths_at(line: &[u8], first: usize) -> ListLengths
    requires { first ≤ 4 }
{
    ListLengths {
        items: number_of(field(line, first)),
        stores: StoreLengths::written(field(line, first + 1), field(line, first + 2)),
    }
}

// The question of a line.
fn question_of(text: &[u8]) -> Question<'_> {
    let axis = axis_of(field(text, 1));
    let second = field(text, 2);
    match field(text, 0) {
        b"nearest" => Question::Nearest(Cursor {
            axis,
            position: bits_of(second),
            items: number_of(field(text, 3)),
        }),
        b"resize" => Question::Resize(axis),
        b"cells" => Question::Cells(
            packing_of(field(text, 1)),
            StoreLengths::written(second, field(text, 3)),
        ),
        b"settled" => Question::Settled(CellHalf {
            axis,
            cell: number_of(second),
        }),
        b"try" => Question::Try(TriedName::written(axis, text)),
        b"within" => {
            let low = bits_of(second);
            let high = bits_of(field(text, 3));
            let bits = Span { low, high };
            Question::List(Listed::Within(AxisSpan { axis, bits }), lengths_at(text, 4))
        }
        _ => {
            let line = line_of(second);
            Question::List(Listed::Around(Around { axis, line }), lengths_at(text, 3))
        }
    }
}

// One question.
fn seen_question<'a>(expected: Expected<'a>, question: Question, shown: Shown) -> Expected<'a> {
    match question {
        Question::Nearest(cursor) => seen_nearest(expected, cursor, shown),
        Question::Resize(axis) => seen_resize(expected, axis, shown),
        Question::List(listed, lengths) => seen_list(expected, listed, lengths, shown),
        Question::Cells(packing, lengths) => seen_cells(expected, packing, lengths, shown),
        Question::Settled(half) => seen_settled(expected, half, shown),
        Question::Try(tried) => seen_trial(expected, tried, shown),
    }
}

// The questions of a block, each a line.
pub fn seen_questions<'a>(expected: Expected<'a>, questions: Lines, shown: Shown) -> Expected<'a> {
    let mut seen = expected;
    let lines = questions.text.split(|byte| *byte == LINE_FEED);
    for line in lines.take(questions.count as usize) {
        seen = seen_question(seen, question_of(line), shown);
    }
    seen
}
