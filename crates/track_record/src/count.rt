// Counts of tracks.
ghost use Rattle.std.specs.Prelude.{◌≡◌, ◌-◌, min};

// How many of `left` tracks come before an end, from a place on.
pub fn before_end(end: u64, at: u64, left: usize) -> usize
    ensures { result ≡ min (end - at) left }
{
    end.saturating_sub(at).min(left as u64) as usize
}
