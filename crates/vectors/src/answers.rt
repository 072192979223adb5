// The lines of a panel's answer beside the expected text.
use crate::expected::Expected;
use crate::tables::Shown;
use cell_placing::MOST_PLACED;
use coordinates::Axis;
use panel_answer::AnswerLine;
use panel_answer::line::{next_line, put_line};
use panel_tables::placement::MOST_PLACEMENTS;
use panel_text::LINE_BYTES;
use track_rules::MOST_RECORDS;

// Whether a line stands in the expected text: a cut one has no records.
fn is_listed(at: AnswerLine, cut: bool) -> bool {
    match at {
        AnswerLine::Record(_, _, _) => !cut,
        _ => true,
    }
}

// One line.
fn seen_line<'a>(
    expected: Expected<'a>,
    shown: Shown,
    lands: &[u64; MOST_PLACED],
    at: AnswerLine,
) -> Expected<'a> {
    let mut line = [0u8; LINE_BYTES];
    let count = put_line(&mut line, shown.grid, shown.lent, lands, Some(at));
    expected.part(&line[..count])
}

// The most lines of an answer: the size and the records of each axis, the placements, of which halves of cells have no text, and the cells.
const MOST_LINES: usize = 2 * (1 + MOST_RECORDS) + MOST_PLACEMENTS as usize + MOST_PLACED;

// All lines.
pub fn seen_answer<'a>(
    expected: Expected<'a>,
    cut: bool,
    shown: Shown,
    lands: &[u64; MOST_PLACED],
) -> Expected<'a> {
    let mut next = Some(AnswerLine::Size(Axis::Column));
    let mut seen = expected;
    for _ in 0..MOST_LINES {
        let Some(at) = next else {
            break;
        };
        if is_listed(at, cut) {
            seen = seen_line(seen, shown, lands, at);
        }
        next = next_line(shown.grid, shown.lent, next);
    }
    seen
}
