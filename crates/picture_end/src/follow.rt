// Whether a row still follows.
ghost use Rattle.std.specs.Prelude.{◌≡◌};
ghost use Rattle.text.specs.Split.{split};
ghost use Rattle.sheet_rules.specs.Contents.{lines_from};
ghost use Rattle.sheet_rules.specs.Kinds.{row_follows};

use crate::class::{LineClass, line_class};
use text::{LINE_FEED, find};

// Whether one of the lines of the rest of a sheet is a row of the picture: no line before it ends it. What stands after the last
// line feed is no line.
#[tactic(auto, using(crate::proofs::Follows::left_none, crate::proofs::Follows::ahead_row, crate::proofs::Follows::ahead_later, crate::proofs::Follows::ahead_between))]
pub fn row_follows(rest: &[u8]) -> bool
    ensures { result ≡ row_follows (lines_from (split 10 rest.now)) }
{
    let mut at = 0;
    while let Some(end) = find(rest, at, LINE_FEED) {
        match line_class(&rest[at..end]) {
            LineClass::Between => {}
            LineClass::Row => return true,
            LineClass::Later => return false,
        }
        at = end + 1;
    }
    false
}
