// A run of tracks that repeat, written by one loop.
ghost use Rattle.std.specs.Prelude.{◌≡◌, ◌+◌, ◌*◌, ◌%◌, ◌≤◌, ◌<◌, length};
ghost use Rattle.std.proofs.lemmas.List.Edits.{sets};
ghost use Rattle.library_records.specs.Pairs.{joined, part_pair};

use crate::{PlacedTrack, SizedTracks, Stretch};
use track_record::Repeated;

// The place of an offset among so many that repeat, most often the offset itself.
fn inner_of(offset: u64, length: u64) -> u64
    requires { 0 < length }
    ensures { result ≡ offset % length }
{
    if offset < length {
        offset
    } else {
        offset % length
    }
}

// The place after one, among so many that repeat.
fn next_of(inner: u64, length: u64) -> u64
    requires { inner < length }
    ensures { result ≡ (inner + 1) % length }
{
    if inner + 1 == length { 0 } else { inner + 1 }
}

impl SizedTracks<'_> {
    // Writes a stretch of tracks with the gutters after them: the sizes of tracks that repeat, from `offset` on.
    pub(crate) fn write_part(self, part: Repeated, offset: u64, tracks: Stretch, words: &mut [u64])
        requires length_nonzero { 0 < tracks.count → 0 < part.length }
        requires length_bound { part.first + part.length < 18446744073709551616 }
        requires count_in_bounds { tracks.place + 6 * tracks.count ≤ length words.old }
        ensures { words.new ≡ sets words.old tracks.place (joined (part_pair self.entry.sizes.minimums.now self.entry.sizes.maximums.now self.entry.items.now part offset tracks.first self.entry.gutters) tracks.first tracks.count) }
    {
        if tracks.count == 0 {
            return;
        }
        let mut inner = inner_of(offset, part.length);
        for done in 0..tracks.count {
            let track = PlacedTrack {
                number: (tracks.first + done) as u64,
                size: part.first + inner,
                source: part.source,
                fit: part.fit,
            };
            self.put_pair(track, words, tracks.place + 6 * done);
            inner = next_of(inner, part.length);
        }
    }
}
