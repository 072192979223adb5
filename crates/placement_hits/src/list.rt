// The list of the placements that are asked for.
ghost use Rattle.std.specs.Prelude.{◌≡◌, ◌<◌, min};
ghost use Rattle.placement_hits.specs.Steps.{Listed, is_hit, listed_of, one_listed, passing};

use crate::Asked;
use crate::member::Placement;
use coordinates::limit::{MOST_PLACEMENTS, PLACEMENT_NUMBERS, PLACEMENT_RUN};

// The most placements of a list, which is as many as a panel holds.
pub const MOST_HITS: usize = MOST_PLACEMENTS;

// Writes the index of a placement after those written so far where it is asked for; how many there are then.
fn put_hit(
    asked: Asked,
    placement: Placement,
    index: u32,
    written: u32,
    hits: &mut [u32; MOST_HITS],
) -> u32
    requires { written < 512 }
    ensures { record { count = result; hits = hits.new } ≡ one_listed (is_hit asked placement.entry.numbers.now 0) index (record { count = written; hits = hits.old }) }
{
    if placement.is_hit(asked) {
        hits[written as usize] = index;
        return written + 1;
    }
    written
}

// Writes the indexes of the placements of a run that are asked for, ascending, from the first place on; how many there are.
pub fn write_hits(
    asked: Asked,
    numbers: &[i32; PLACEMENT_RUN],
    count: u32,
    hits: &mut [u32; MOST_HITS],
) -> u32
    ensures { record { count = result; hits = hits.new } ≡ listed_of (passing (is_hit asked numbers.now) 0 (min count 512)) hits.old }
{
    let mut written: u32 = 0;
    for (index, chunk) in (0..count).zip(numbers.chunks_exact(PLACEMENT_NUMBERS)) {
        let placement = Placement { numbers: chunk };
        written = put_hit(asked, placement, index, written, hits);
    }
    written
}
