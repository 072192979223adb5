// How far a line lies from where a search begins, on the side that it looks at.
ghost use Rattle.std.specs.Prelude.{◌<◌, eqb, ◌≡◌};
ghost use Rattle.name_search.specs.Nearest.{Nearest, number_at, past, reach};

use crate::Sought;
use name_entries::LAST_LINE;
use name_lines::Way;

impl Sought {
    // How many lines there are to look at: those on to the last that can have a name, or those back to the first.
    pub(crate) fn lines_on(self) -> u32
        ensures { result ≡ reach self.nth.way self.nth.from }
    {
        match self.nth.way {
            Way::Up => LAST_LINE.saturating_sub(self.nth.from),
            Way::Down => self.nth.from,
        }
    }

    // The distance of the line of a number from 1 where it is below `best`, else `best`.
    pub(crate) fn nearer(self, number: u32, best: u32) -> u32
        ensures { Nearest (λ d. eqb number (number_at self.nth.way self.nth.from d)) best result }
    {
        match self.nth.way {
            Way::Up if self.nth.from < number => best.min(number - self.nth.from - 1),
            Way::Down if number <= self.nth.from => best.min(self.nth.from - number),
            _ => best,
        }
    }
}

// Where a search goes on past a line.
pub(crate) fn past_line(way: Way, line: u32) -> u32
    requires { line < 4294967295 }
    ensures { result ≡ past way line }
{
    match way {
        Way::Up => line + 1,
        Way::Down => line,
    }
}
