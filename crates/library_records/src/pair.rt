// The words of a record, and of a track with the gutter after it.
ghost use Rattle.std.specs.Prelude.{◌≡◌, cond, ◌+◌, ◌*◌, ◌≤◌, ◌<◌, length, get_or};
ghost use Rattle.std.proofs.lemmas.List.Edits.{sets};
ghost use Rattle.sizing.specs.Words.{min_max_of};
ghost use Rattle.track_rules.specs.Records.{item_at};
ghost use Rattle.track_rules.specs.Numbers.{kind_number, source_number};
ghost use Rattle.library_records.specs.Pairs.{record_numbers, pair_words};

use crate::size::size_at;
use crate::{PlacedTrack, SizedTracks};
use track_record::collapse::{gutter_collapses, track_collapses};
use track_rules::{GridTrackKind, TrackSource};

// The first word of a record: its kind, 2 more where it is collapsed, and 4 times its source.
#[tactic(auto, using(library_numbers::proofs::RecordKinds::kind_small, library_numbers::proofs::RecordKinds::source_small))]
fn kind_word(kind: GridTrackKind, source: TrackSource, collapsed: bool) -> u64
    ensures { result ≡ kind_number kind + cond collapsed 2 0 + 4 * source_number source }
{
    let closed = if collapsed { 2 } else { 0 };
    u64::from(kind) + closed + 4 * u64::from(source)
}

// A word of its size, 0 where it is collapsed.
fn open_word(collapsed: bool, word: u64) -> u64
    ensures { result ≡ cond collapsed 0 word }
{
    if collapsed { 0 } else { word }
}

// Writes a record at a place: the one place for the words of a record.
pub(crate) fn put_record(
    words: &mut [u64],
    place: usize,
    kind: GridTrackKind,
    source: TrackSource,
    collapsed: bool,
    low: u64,
    high: u64,
)
    requires place_in_bounds { place + 3 ≤ length words.old }
    ensures { words.new ≡ sets words.old place (record_numbers (kind_number kind) (source_number source) collapsed low high) }
{
    words[place] = kind_word(kind, source, collapsed);
    words[place + 1] = open_word(collapsed, low);
    words[place + 2] = open_word(collapsed, high);
}

impl SizedTracks<'_> {
    // Writes a track, its sizes at a place of the tables, and the gutter after it.
    pub(crate) fn put_pair(self, track: PlacedTrack, words: &mut [u64], place: usize)
        requires number_bound { track.number < 4294967296 }
        requires place_in_bounds { place + 6 ≤ length words.old }
        ensures { words.new ≡ sets words.old place (pair_words self.entry.gutters (item_at self.entry.items.now) track.number (record { size = min_max_of (get_or self.entry.sizes.minimums.now track.size 0) (get_or self.entry.sizes.maximums.now track.size 0); source = track.source; fit = track.fit })) }
    {
        let collapsed = track_collapses(self.items, track.fit, track.number);
        put_record(
            words,
            place,
            GridTrackKind::Track,
            track.source,
            collapsed,
            size_at(self.sizes.minimums, track.size),
            size_at(self.sizes.maximums, track.size),
        );
        let gap = self.gutters.gap;
        let shut = gutter_collapses(collapsed, self.gutters.opened, track.number + 1);
        put_record(
            words,
            place + 3,
            GridTrackKind::Gutter,
            TrackSource::Gutter,
            shut,
            gap,
            gap,
        );
    }
}
