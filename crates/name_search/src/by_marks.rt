// The n-th line of a name beside many entries: marked in windows of 2,048 lines, one after the other, as far as the highest line that bears any name.
ghost use Rattle.std.specs.Prelude.{◌-◌, ◌≤◌, ◌≡◌};
ghost use Rattle.name_entries.specs.Entries.{entries_of};
ghost use Rattle.name_lines.specs.Areas.{areas_of, bears_joined};
ghost use Rattle.name_lines.specs.Marks.{seek_of, walk};
ghost use Rattle.name_search.specs.Marked.{Marked};
ghost use Rattle.name_search.specs.Scans.{scan, window_length};
ghost use Rattle.name_search.specs.Sought.{marks_in};

use crate::Search;
use crate::highest::highest_line;
use crate::marks::Marks;
use crate::window::Window;

impl Search<'_> {
    // Mark the lines of the name: those of entries, and the edge sought of the drawn areas that have the stem for a name.
    fn mark_sought(self, marks: &mut Marks)
        ensures { Marked marks.old marks.new (λ n. bears_joined (entries_of self.entry.names.entries.now self.entry.names.store.now) (areas_of self.entry.sought.axis self.entry.areas.edges.now self.entry.areas.names.now self.entry.areas.store.now) self.entry.name.stem.now self.entry.name.edge n) }
    {
        marks.mark_entries(self.names, self.name);
        if let Some(end) = self.name.edge {
            marks.mark_areas(self.sought.axis, self.areas, self.name.stem, end);
        }
    }

    // One window of at most 2,048 lines, after so many lines of the name.
    fn nth_in_window(self, window: Window, over: u32) -> Result<u32, u32>
        requires { (window.low ≤ window.end) × (window.end - window.low ≤ window_length) }
        ensures { seek_of result ≡ scan self.entry.sought.nth.way (marks_in self.entry) window.low (window.end - window.low) over }
    {
        let mut marks = Marks::new(window);
        self.mark_sought(&mut marks);
        marks.seek(self.sought.nth.way, over)
    }

    // The line of the name from the line on, or before it, after so many lines of it.
    pub(crate) fn nth_by_marks(self) -> Result<u32, u32>
        ensures { seek_of result ≡ walk self.entry.sought.nth.way (marks_in self.entry) self.entry.sought.nth.from self.entry.sought.nth.over }
    {
        let way = self.sought.nth.way;
        let highest = highest_line(self.sought.axis, self.names.entries, self.areas.edges);
        let mut lines = self.sought.lines_sought(highest);
        let mut m = self.sought.nth.over;
        while lines.low < lines.end {
            let window = lines.next_window(way);
            match self.nth_in_window(window, m) {
                Ok(line) => return Ok(line),
                Err(left) => m = left,
            }
            lines = lines.lines_left(way, window);
        }
        Err(m)
    }
}
