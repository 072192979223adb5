// The cursor on the lines of a panel: the nearest line, and the lines within a span of pixels.

#![tactic(auto)]

ghost use Rattle.std.specs.Prelude.{◌≡◌};
ghost use Rattle.coordinates.specs.Refusals.{number_of};
ghost use Rattle.panel_positions.specs.Cursor.{answered_nearest_line, answered_between, nearest_line, lines_within, no_axis_positions};

mod walk;

use coordinates::{Axis, Fault};
use line_positions::Span;
use panel_calls::axis_track::LentAxis;
use panel_tables::Grid;
use panel_tables::region::PANEL_WORDS;

// A grid line, or a refusal and 0, for C.
#[repr(C)]
#[derive(Clone, Copy, Debug, PartialEq, Eq)]
pub struct LineAnswer {
    pub number: u32,
    pub line: i32,
}

impl From<Result<i32, Fault>> for LineAnswer {
    ghost from_gives = { λ found answer. answer ≡ answered_nearest_line found };

    // The line, or the number of the fault and 0.
    fn from(found: Result<i32, Fault>) -> LineAnswer {
        match found {
            Ok(line) => LineAnswer { number: 0, line },
            Err(fault) => LineAnswer {
                number: u32::from(fault),
                line: 0,
            },
        }
    }
}

// How many lines of an axis lie before a span, and how many up to its end: the lines within it are those between.
#[derive(Clone, Copy, Debug, PartialEq, Eq)]
pub struct Between {
    pub below: u32,
    pub upto: u32,
}

// The line of an axis nearest to a cursor, the lower of two as near, as a grid line. Refuses bits that are no length in range by 3,
// then counts that no sheet gives by 4, fewer than N item bytes by 10, and a record with no definite size by 11.
pub fn nearest_line(
    grid: Grid,
    words: &[u64; PANEL_WORDS],
    axis: Axis,
    items: &[u8],
    cursor: u32,
) -> Result<i32, Fault>
    ensures { answered_nearest_line result ≡ nearest_line grid words.now axis items.now cursor }
{
    walk::nearest_on(LentAxis::of_panel(grid, words, axis, items), cursor)
}

// How many lines of an axis lie before a span, and how many at its end or before: the lines within it are those between. Refuses as
// `nearest_line` does.
pub fn lines_within(
    grid: Grid,
    words: &[u64; PANEL_WORDS],
    axis: Axis,
    items: &[u8],
    span: Span<u32>,
) -> Result<Between, Fault>
    ensures { answered_between result ≡ lines_within grid words.now axis items.now span.low span.high }
{
    walk::lines_on(LentAxis::of_panel(grid, words, axis, items), span)
}

// What positions on no axis are refused by: their range first.
pub fn positions_on_no_axis(span: Span<u32>) -> Fault
    ensures { number_of result ≡ no_axis_positions span.low span.high }
{
    if walk::are_lengths(span) {
        return Fault::Count;
    }
    Fault::Value
}
