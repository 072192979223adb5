// How many entries the template's names are, held at 4,097: no repetition is walked through.
ghost use Rattle.std.specs.Prelude.{◌≡◌, ◌+◌, ◌*◌, ◌≤◌, min, length};
ghost use Rattle.name_template.specs.Writing.{written_entries};

use crate::{MOST_COMPONENTS, TemplateNames};
use name_entries::MOST_ENTRIES;

// More entries than an axis has.
const TOO_MANY: u64 = MOST_ENTRIES as u64 + 1;

// A count and so many names more, so many times, held at 4,097.
fn held_sum(count: u64, names: u64, times: u64) -> u64
    requires { count ≤ 4097 }
    ensures { result ≡ min 4097 (count + times * names) }
{
    (count + times.min(TOO_MANY) * names.min(TOO_MANY)).min(TOO_MANY)
}

impl TemplateNames<'_> {
    // The number of entries that the records give, held at 4,097. No record names a component from 256 on.
    pub fn count_names(self) -> u32
        ensures { result ≡ min 4097 (length (written_entries self.entry.names.now self.entry.components.now self.entry.repetitions)) }
    {
        let last = self.components.len().min(MOST_COMPONENTS);
        let mut count: u64 = 0;
        let mut at: usize = 0;
        let mut line: u64 = 1;
        for k in 0..last {
            let c = self.component_names(at, k, line);
            let outside = held_sum(count, (c.before - at) as u64, 1);
            count = held_sum(outside, (c.inside - c.before) as u64, c.times);
            at = c.inside;
            line = c.line;
        }
        let end = self.end_of_names(at, last as u64, false);
        held_sum(count, (end - at) as u64, 1) as u32
    }
}
