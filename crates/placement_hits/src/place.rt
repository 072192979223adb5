// The place of a grid line.
ghost use Rattle.std.specs.Prelude.{◌≡◌};
ghost use Rattle.placement_hits.specs.Steps.{place_of};

use track_counts::counts::TrackCounts;

// The place of a grid line, from 0 at the grid's first, counted from the grid's edge and not held; line 0 and a line off the grid have none.
#[tactic(auto, unfolding(crate::specs::Steps::place_of), using(crate::proofs::Converted::place_before))]
pub fn line_place(counts: TrackCounts, line: i32) -> Option<u32>
    ensures { result ≡ place_of counts line }
{
    let before = u32::from(counts.negative_implicit);
    match line {
        0 => None,
        1.. => {
            let place = before + (line.unsigned_abs() - 1);
            (place <= counts.tracks()).then_some(place)
        }
        _ => (before + u32::from(counts.explicit)).checked_sub(line.unsigned_abs() - 1),
    }
}
