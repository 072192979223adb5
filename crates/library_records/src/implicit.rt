// Runs of implicit tracks: the spare sizes, which repeat.
ghost use Rattle.std.specs.Prelude.{◌≡◌, cond, eqb, ◌+◌, ◌*◌, ◌-◌, ◌%◌, ◌≤◌, ◌<◌, length};
ghost use Rattle.std.proofs.lemmas.List.Edits.{sets};
ghost use Rattle.track_rules.specs.Written.{spare_sizes};
ghost use Rattle.track_rules.specs.declared.TrackSource.TheVariants.{Negative};
ghost use Rattle.library_records.specs.Pairs.{joined, spare_pair, positive_pair};

use crate::{SizedTracks, Stretch};
use sizing::Sizing;
use template_rules::SizeTables;
use track_record::Repeated;
use track_record::count::before_end;
use track_rules::TrackSource;
use track_rules::implicit::first_spare;

// Tables of sizes, or where they are empty one size alone.
fn sizes_or<'a>(sizes: SizeTables<'a>, size: &'a [u64; 1]) -> SizeTables<'a>
    ensures minimums { result.minimums.now ≡ cond (eqb (length sizes.entry.minimums.now) 0) size.now sizes.entry.minimums.now }
    ensures maximums { result.maximums.now ≡ cond (eqb (length sizes.entry.minimums.now) 0) size.now sizes.entry.maximums.now }
{
    if sizes.minimums.is_empty() {
        return SizeTables {
            minimums: size,
            maximums: size,
        };
    }
    sizes
}

impl SizedTracks<'_> {
    // Writes a stretch of tracks with the gutters after them: the spare sizes from `offset` on, auto where there are none.
    pub(crate) fn write_spares(
        self,
        source: TrackSource,
        offset: u64,
        tracks: Stretch,
        words: &mut [u64],
    )
        requires count_in_bounds { tracks.place + 6 * tracks.count ≤ length words.old }
        ensures { words.new ≡ sets words.old tracks.place (joined (spare_pair source (spare_sizes self.entry.sizes) self.entry.items.now offset tracks.first self.entry.gutters) tracks.first tracks.count) }
    {
        let auto = [u64::from(Sizing::Auto)];
        let sizes = sizes_or(self.sizes, &auto);
        let sized = SizedTracks {
            sizes,
            items: self.items,
            gutters: self.gutters,
        };
        let part = Repeated {
            first: 0,
            length: sizes.minimums.len() as u64,
            source,
            fit: false,
        };
        sized.write_part(part, offset, tracks, words);
    }

    // Writes a stretch of the tracks before the grid, of which there are `negative`, with the gutters after them.
    pub(crate) fn write_negative(self, negative: u64, tracks: Stretch, words: &mut [u64])
        requires count_in_bounds { tracks.place + 6 * tracks.count ≤ length words.old }
        ensures { words.new ≡ sets words.old tracks.place (joined (spare_pair Negative (spare_sizes self.entry.sizes) self.entry.items.now (length self.entry.sizes.minimums.now - negative % length self.entry.sizes.minimums.now + tracks.first) tracks.first self.entry.gutters) tracks.first tracks.count) }
    {
        if tracks.count == 0 {
            return;
        }
        let offset = first_spare(self.sizes.minimums.len(), negative) + tracks.first as u64;
        self.write_spares(TrackSource::Negative, offset, tracks, words);
    }

    // Writes a stretch of the tracks after those of the template, with the gutters after them: those before `end` only an area makes.
    pub(crate) fn write_positive(self, end: u64, offset: u64, tracks: Stretch, words: &mut [u64])
        requires offset_bound { offset < 4294967296 }
        requires count_in_bounds { tracks.place + 6 * tracks.count ≤ length words.old }
        ensures { words.new ≡ sets words.old tracks.place (joined (positive_pair (spare_sizes self.entry.sizes) self.entry.items.now end offset tracks.first self.entry.gutters) tracks.first tracks.count) }
    {
        let areas = before_end(end, tracks.first as u64, tracks.count);
        let (early, late) = tracks.cut(areas);
        self.write_spares(TrackSource::Area, offset, early, words);
        self.write_spares(TrackSource::Positive, offset + areas as u64, late, words);
    }
}
