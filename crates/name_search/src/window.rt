// Windows of lines: what is looked at in one go.
ghost use Rattle.std.specs.Prelude.{◌-◌, ◌<◌, ◌≤◌, ◌≡◌};
ghost use Rattle.name_search.specs.Scans.{lines_left, lines_sought, next_window, place_at};

use crate::Sought;
use name_entries::LAST_LINE;
use name_lines::Way;

// The lines from `low` on before `end`.
#[derive(Clone, Copy, Debug, PartialEq, Eq)]
pub(crate) struct Window {
    pub low: u32,
    pub end: u32,
}

// How many lines are marked at a time.
pub(crate) const WINDOW: u32 = 2048;

impl Sought {
    // The lines that a search looks at, where none past the `highest` bears a name.
    pub(crate) fn lines_sought(self, highest: u32) -> Window
        ensures { result ≡ lines_sought self.nth.way self.nth.from highest }
    {
        match self.nth.way {
            Way::Up => Window {
                low: self.nth.from,
                end: highest.min(LAST_LINE),
            },
            Way::Down => Window {
                low: 0,
                end: self.nth.from.min(highest),
            },
        }
    }
}

impl Window {
    // The next of the lines in a search: the first 2,048 of them, or the last.
    pub(crate) fn next_window(self, way: Way) -> Window
        requires { self.low ≤ self.end }
        ensures { result ≡ next_window way self }
    {
        if self.end - self.low <= WINDOW {
            return self;
        }
        match way {
            Way::Up => Window {
                end: self.low + WINDOW,
                ..self
            },
            Way::Down => Window {
                low: self.end - WINDOW,
                ..self
            },
        }
    }

    // The lines that are left after a window of them.
    pub(crate) fn lines_left(self, way: Way, window: Window) -> Window
        ensures { result ≡ lines_left way self window }
    {
        match way {
            Way::Up => Window {
                low: window.end,
                ..self
            },
            Way::Down => Window {
                end: window.low,
                ..self
            },
        }
    }

    // The place that is looked at after so many: from the first on, or from the last back.
    pub(crate) fn place_at(self, way: Way, passed: u32) -> u32
        requires { passed < self.end - self.low }
        ensures { result ≡ place_at way (self.end - self.low) passed }
    {
        match way {
            Way::Up => passed,
            Way::Down => self.end - self.low - 1 - passed,
        }
    }
}
