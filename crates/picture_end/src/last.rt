// The last row of a picture.
ghost use Rattle.std.specs.Prelude.{◌≡◌};
ghost use Rattle.text.specs.Split.{split};
ghost use Rattle.sheet_rules.specs.Contents.{lines_from};
ghost use Rattle.picture_end.specs.Steps.{broken_row};

use crate::class::{LineClass, line_class};
use crate::follow::row_follows;

// Whether a line of a sheet is the last row of a picture, which is broken after it or is not; the rest of the sheet comes after the line.
pub fn last_broken_row(broken: bool, line: &[u8], rest: &[u8]) -> bool
    ensures { result ≡ broken_row broken (split 9 line.now) (lines_from (split 10 rest.now)) }
{
    // Asked first: most lines stand in no broken picture, and need not be cut.
    if !broken {
        return false;
    }
    line_class(line) == LineClass::Row && !row_follows(rest)
}
