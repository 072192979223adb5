// The nearest line of a name among entries and drawn areas.
ghost use Rattle.name_lines.specs.Areas.{areas_of, bears_joined};
ghost use Rattle.name_lines.specs.Marks.{walk};
ghost use Rattle.name_entries.specs.Entries.{entries_of};
ghost use Rattle.name_search.specs.Nearest.{Nearest, nearest_of, number_at};
ghost use Rattle.name_search.specs.Sought.{marks_in};
ghost use Rattle.std.specs.Prelude.{◌≡◌};

use crate::Search;
use crate::areas::nearest_areas;
use crate::entries::nearest_entries;
use name_lines::Way;

impl Search<'_> {
    // The least distance below `limit` of a line of the name: those of entries, and that edge of the drawn areas that have the stem for a name.
    fn nearest_sought(self, limit: u32) -> u32
        ensures { Nearest (λ d. bears_joined (entries_of self.entry.names.entries.now self.entry.names.store.now) (areas_of self.entry.sought.axis self.entry.areas.edges.now self.entry.areas.names.now self.entry.areas.store.now) self.entry.name.stem.now self.entry.name.edge (number_at self.entry.sought.nth.way self.entry.sought.nth.from d)) limit result }
    {
        let best = nearest_entries(self.sought, self.names, self.name, limit);
        match self.name.edge {
            Some(end) => nearest_areas(self.sought, self.areas, self.name.stem, end, best),
            None => best,
        }
    }

    // The nearest line of the name from the line on, or before it.
    pub(crate) fn nearest_line(self) -> Option<u32>
        ensures { nearest_of result ≡ walk self.entry.sought.nth.way (marks_in self.entry) self.entry.sought.nth.from 0 }
    {
        let from = self.sought.nth.from;
        let limit = self.sought.lines_on();
        let near = self.nearest_sought(limit);
        if limit <= near {
            return None;
        }
        match self.sought.nth.way {
            Way::Up => Some(from + near),
            Way::Down => Some(from - near - 1),
        }
    }
}
