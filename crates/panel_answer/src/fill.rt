// The text of an answer, written part after part.
ghost use Rattle.panel_answer.specs.Answer.{held_with};
ghost use Rattle.panel_answer.specs.Listed.{answered_next};
ghost use Rattle.panel_answer.specs.Text.{FillsText};

use crate::line::{next_line, put_line};
use crate::{AnswerLine, Filled};
use cell_placing::MOST_PLACED;
use panel_tables::{Grid, LentPanel};
use panel_text::LINE_BYTES;

// Writes the lines of an answer from the next on at the start of lent bytes, as long as any line has room there.
pub fn fill(
    out: &mut [u8],
    grid: Grid,
    lent: LentPanel,
    lands: &[u64; MOST_PLACED],
    at: Option<AnswerLine>,
) -> Filled
    ensures { FillsText out.old (held_with grid lent.entry lands.now) (answered_next at) out.new result }
{
    let mut next = at;
    let mut count: usize = 0;
    while let Some(line) = next {
        if out.len() - count < LINE_BYTES {
            return Filled { count, next };
        }
        count += put_line(&mut out[count..], grid, lent, lands, Some(line));
        next = next_line(grid, lent, Some(line));
    }
    Filled { count, next }
}
