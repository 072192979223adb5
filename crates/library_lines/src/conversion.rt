// The conversions between grid lines and origin-zero lines.
ghost use Rattle.std.specs.Prelude.{◌≡◌};
ghost use Rattle.coordinates.specs.Answers.{answered_conversion, answered_grid_line, grid_line_answer};
ghost use Rattle.library_lines.specs.Numbers.{conversion_of};

use crate::number::{count_number, line_number};
use coordinates::{Fault, GridLine, MarkedLine, OriginZeroLine};

// The origin-zero line of a grid line beside so many explicit tracks, held, with its mark. Refused: a count above 10,000 or a line outside
// -32,768..32,767 (4), and then line 0 (9).
#[tactic(auto, unfolding(crate::specs::Numbers::conversion_of))]
pub fn into_origin_zero_line(line: i32, explicit: u32) -> Result<MarkedLine, Fault>
    ensures { answered_conversion result ≡ conversion_of explicit line }
{
    let line = GridLine(line_number(line)?);
    line.into_origin_zero_line(count_number(explicit)?)
}

// The grid line of an origin-zero line beside so many explicit tracks. Refused by 4: a count above 10,000, and a line outside -10,000..10,000.
#[tactic(auto, using(crate::proofs::Refused::wide_grid_line, crate::proofs::Refused::many_grid_line))]
pub fn into_grid_line(line: i32, explicit: u32) -> Result<GridLine, Fault>
    ensures { answered_grid_line result ≡ grid_line_answer explicit line }
{
    let line = OriginZeroLine(line_number(line)?);
    line.into_grid_line(count_number(explicit)?)
}
