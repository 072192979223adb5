// Lines that are found again.
ghost use Rattle.std.specs.Prelude.{◌≡◌, eqb, length, drop, MatchOption};
ghost use Rattle.text.specs.Split.{before};
ghost use Rattle.history_lines.specs.Found.{Unmarked, MarkedBy, line_at, after_lines};

use crate::HistoryLine;
use text::{Decimal, LINE_FEED, Place, TAB};

// Whether a text has no line feed.
pub fn one_line(text: &[u8]) -> bool
    ensures { result ≡ eqb (before 10 text.now) (length text.now) }
{
    !text.contains(&LINE_FEED)
}

// What stands after a step's number and its tab, where a text begins with them.
#[tactic(auto, using(crate::proofs::Steps::no_digits, crate::proofs::Steps::no_tab, crate::proofs::Steps::marked))]
fn after_mark(s: &[u8], number: u64) -> Option<&[u8]>
    ensures { MatchOption result (Unmarked number s.now) (λ rest. MarkedBy number s.now rest.now) }
{
    s.strip_prefix(Decimal::new(number).as_bytes())?
        .strip_prefix(&[TAB])
}

// The line of a step at a place.
#[tactic(auto, using(crate::proofs::Steps::line_past, crate::proofs::Steps::line_unmarked, crate::proofs::Steps::line_open, crate::proofs::Steps::line_found))]
pub fn find_line(s: &[u8], place: usize, number: u64) -> Option<HistoryLine>
    ensures { result ≡ line_at number s.now place }
{
    let text = after_mark(s.get(place..)?, number)?;
    let length = text::find(text, 0, LINE_FEED)?;
    let offset = s.len() - text.len();
    Some(HistoryLine {
        text: Place { offset, length },
        after: offset + length + 1,
    })
}

// The place after the first lines.
pub fn after_lines(s: &[u8], count: u64) -> Option<usize>
    ensures { result ≡ after_lines count 1 s.now 0 }
{
    let mut at = 0;
    for number in 1..=count {
        at = find_line(s, at, number)?.after;
    }
    Some(at)
}
