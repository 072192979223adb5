// Marked lines of a window, counted from either side.
ghost use Rattle.std.specs.Prelude.{◌-◌, ◌≤◌, ◌≡◌};
ghost use Rattle.name_lines.specs.Marks.{marked, seek_of};
ghost use Rattle.name_search.specs.Scans.{scan, window_length};

use crate::marks::Marks;
use name_lines::Way;

impl Marks {
    // Pass over `over` marked lines of the window, and answer the next.
    pub(crate) fn seek(&self, way: Way, over: u32) -> Result<u32, u32>
        requires { (self.now.window.low ≤ self.now.window.end) × (self.now.window.end - self.now.window.low ≤ window_length) }
        ensures { seek_of result ≡ scan way (λ l. marked self.now.marked (l - self.now.window.low)) self.now.window.low (self.now.window.end - self.now.window.low) over }
    {
        let window = self.window;
        let mut m = over;
        for i in 0..window.end - window.low {
            let place = window.place_at(way, i);
            if self.marked[place as usize] {
                if m == 0 {
                    return Ok(window.low + place);
                }
                m -= 1;
            }
        }
        Err(m)
    }
}
