// The n-th line of a name beside few entries and areas: the nearest, then the nearest past that, and so on.
ghost use Rattle.name_lines.specs.Marks.{seek_of, walk};
ghost use Rattle.name_search.specs.Sought.{marks_in};
ghost use Rattle.std.specs.Prelude.{◌≡◌};

use crate::Search;
use crate::distance::past_line;

impl Search<'_> {
    // The line of the name from the line on, or before it, after so many lines of it.
    pub(crate) fn nth_by_distance(self) -> Result<u32, u32>
        ensures { seek_of result ≡ walk self.entry.sought.nth.way (marks_in self.entry) self.entry.sought.nth.from self.entry.sought.nth.over }
    {
        let mut from = self.sought.nth.from;
        let mut m = self.sought.nth.over;
        loop {
            let sought = self.sought.part(from, self.sought.nth.over);
            let Some(line) = (Search { sought, ..self }).nearest_line() else {
                return Err(m);
            };
            if m == 0 {
                return Ok(line);
            }
            from = past_line(self.sought.nth.way, line);
            m -= 1;
        }
    }
}
