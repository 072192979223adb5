// Lines of a name, counted: where too few lines bear it, every line past the explicit grid counts.
ghost use Rattle.std.specs.Prelude.{max, min, suc, pos, ◌≡◌};
ghost use Rattle.coordinates.specs.Held.{HeldAs};
ghost use Rattle.name_rules.specs.Rule.{settle};
ghost use Rattle.name_lines.specs.Areas.{side_of};
ghost use Rattle.name_lines.specs.Marks.{seek_of};
ghost use Rattle.name_resolver.specs.Counts.{first_line, found_line, held_count, index_count, most_counted, span_count};

use coordinates::{MarkedLine, OriginZeroLine};
use name_lines::{GridAreaEnd, Way};

// How the lines of a name are counted: which way from a line, passing over so many.
#[derive(Clone, Copy, Debug, PartialEq, Eq)]
pub struct Count {
    pub way: Way,
    pub first: i64,
    pub over: u32,
}

// A number, held at the most that 32 bits hold.
fn held_number(number: u64) -> u32
    ensures { result ≡ min number most_counted }
{
    u32::try_from(number).unwrap_or(u32::MAX)
}

impl Count {
    // How an index counts: positive from line 0 on, negative from the last explicit line back. How many it passes over is held at 32 bits.
    pub fn of_index(index: i64, explicit: u16) -> Count
        ensures { result ≡ held_count (index_count explicit index) }
    {
        let over = held_number(index.unsigned_abs().saturating_sub(1));
        if index < 0 {
            Count {
                way: Way::Down,
                first: i64::from(explicit),
                over,
            }
        } else {
            Count {
                way: Way::Up,
                first: 0,
                over,
            }
        }
    }

    // How a span counts beside a line: back from it for a start, on from it for an end. A span of 0 counts as 1.
    pub fn of_span(span: u16, beside: OriginZeroLine, end: GridAreaEnd) -> Count
        ensures { result ≡ span_count (side_of end) span beside.0 }
    {
        let line = i64::from(beside.0);
        let over = u32::from(span.saturating_sub(1));
        match end {
            GridAreaEnd::Start => Count {
                way: Way::Down,
                first: line - 1,
                over,
            },
            GridAreaEnd::End => Count {
                way: Way::Up,
                first: line + 1,
                over,
            },
        }
    }
}

// Where a count forwards begins: a line before the first counts as the first. Held at 32 bits.
pub fn first_line(line: i64) -> u32
    ensures { result ≡ min (first_line line) most_counted }
{
    held_number(line.max(0).unsigned_abs())
}

// The line that a search forwards comes to; missing lines are counted on past the explicit grid, or from `first` on, held at 10,000, with its mark.
pub fn line_forwards(explicit: u16, first: u32, found: Result<u32, u32>) -> MarkedLine
    ensures { HeldAs (pos (settle (max first (suc explicit)) (seek_of found))) result }
{
    let start = first.max(u32::from(explicit) + 1);
    OriginZeroLine::hold(match found {
        Ok(line) => i64::from(line),
        Err(missing) => i64::from(start) + i64::from(missing),
    })
}

// The line past those at which a count backwards looks: the lines up to `line`, and explicit ones only.
pub fn explicit_end(explicit: u16, line: u32) -> u32
    ensures { result ≡ suc (min line explicit) }
{
    line.min(u32::from(explicit)) + 1
}

// The line that a search backwards comes to; missing lines are counted on before line 0. Held, with its mark.
pub fn line_backwards(found: Result<u32, u32>) -> MarkedLine
    ensures { HeldAs (found_line (seek_of found)) result }
{
    OriginZeroLine::hold(match found {
        Ok(line) => i64::from(line),
        Err(missing) => -1 - i64::from(missing),
    })
}
