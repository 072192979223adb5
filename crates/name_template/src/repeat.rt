// How often the names inside a component are written, and the line after it.
ghost use Rattle.std.specs.Prelude.{◌≡◌, ◌≤◌};
ghost use Rattle.name_template.specs.Writing.{times_of, line_after};
ghost use Rattle.name_template.specs.Steps.{repetitions_written};

use coordinates::line::MOST_TRACKS;
use template_rules::RepetitionCount;

// Names are written as far as this line.
const LAST_WRITTEN: u64 = MOST_TRACKS as u64;

// A repeat's count, or the repetitions found for an automatic one. A single repeats nothing.
pub fn times_of(count: RepetitionCount, repetitions: u64) -> u64
    ensures { result ≡ times_of repetitions count }
{
    match count {
        RepetitionCount::Single => 0,
        RepetitionCount::Count(n) => n,
        RepetitionCount::AutoFill | RepetitionCount::AutoFit => repetitions,
    }
}

// How many repetitions are written from a line on: the first that ends past line 10,000 is the last.
pub fn repetitions_written(times: u64, line: u64, tracks: u64) -> u64
    ensures { result ≡ repetitions_written times line tracks }
{
    if times == 0 {
        return 0;
    }
    if LAST_WRITTEN < line {
        return 1;
    }
    if tracks == 0 {
        return times;
    }
    times.min((LAST_WRITTEN - line) / tracks + 1)
}

// The line after a component whose names are written so many times. Tracks and lines are small, as words hold them.
pub(crate) fn line_after(times: u64, line: u64, tracks: u64, written: u64) -> u64
    requires small { (line ≤ 4294967296) × (tracks ≤ 65535) }
    requires counted { written ≡ repetitions_written times line tracks }
    ensures { result ≡ line_after times line tracks }
{
    if times == 0 {
        return line + 1;
    }
    line + written * tracks
}
