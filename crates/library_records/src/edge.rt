// A run of records: those at its ends one by one, and what lies between by tracks with the gutters after them.
ghost use Rattle.std.specs.Prelude.{◌≡◌, ◌+◌, ◌*◌, ◌-◌, ◌%◌, ◌≤◌, ◌<◌, min, length};
ghost use Rattle.std.proofs.lemmas.List.Edits.{sets};
ghost use Rattle.library_records.specs.Pairs.{joined, record_at};

use crate::axis::write_pairs;
use crate::pair::put_record;
use crate::{PlannedAxis, Stretch};
use panel_calls::axis_track::{LentAxis, axis_tracks};
use track_record::rule::cursor_at;
use track_rules::{GridTrackKind, TrackSource, TrackWalk};

// Writes record `index` at a place.
fn write_record(planned: PlannedAxis, index: usize, words: &mut [u64], place: usize)
    requires place_in_bounds { place + 3 ≤ length words.old }
    ensures { words.new ≡ sets words.old place (record_at planned.entry.lent.grid planned.entry.lent.tables.now planned.entry.lent.items.now index) }
{
    let lent = planned.lent;
    let axis = axis_tracks(lent.grid);
    let template = lent.template();
    let cursor = cursor_at(template.components, axis, index as u64);
    let at = TrackWalk {
        axis,
        plan: planned.plan,
        cursor,
    };
    let track = lent.carried(at, index);
    put_record(
        words,
        place,
        track.kind,
        track.source,
        track.collapsed,
        u64::from(track.size.min),
        u64::from(track.size.max),
    );
}

// Writes at most one record. The first gutter is always collapsed.
fn write_edge(planned: PlannedAxis, records: Stretch, words: &mut [u64])
    requires count_bound { records.count ≤ 1 }
    requires count_in_bounds { records.place + 3 * records.count ≤ length words.old }
    ensures { words.new ≡ sets words.old records.place (joined (record_at planned.entry.lent.grid planned.entry.lent.tables.now planned.entry.lent.items.now) records.first records.count) }
{
    if records.count == 0 {
        return;
    }
    if records.first == 0 {
        let (kind, source) = (GridTrackKind::Gutter, TrackSource::Gutter);
        put_record(words, records.place, kind, source, true, 0, 0);
        return;
    }
    write_record(planned, records.first, words, records.place);
}

// How many of `count` records from one on come before a track: 1 where that one is a gutter.
fn head_count(first: usize, count: usize) -> usize
    ensures { result ≡ min (1 - first % 2) count }
{
    count.min(1 - first % 2)
}

// Writes `count` records of an axis from `first` on.
pub(crate) fn write_axis(lent: LentAxis, first: usize, count: usize, words: &mut [u64])
    requires count_bound { first + count < 4294967296 }
    requires count_in_bounds { 3 * count ≤ length words.old }
    ensures { words.new ≡ sets words.old 0 (joined (record_at lent.entry.grid lent.entry.tables.now lent.entry.items.now) first count) }
{
    let plan = lent.plan();
    let planned = PlannedAxis { lent, plan };
    let head = head_count(first, count);
    let start = Stretch {
        first,
        count: head,
        place: 0,
    };
    write_edge(planned, start, words);
    let pairs = (count - head) / 2;
    let middle = Stretch {
        first: (first + head) / 2,
        count: pairs,
        place: 3 * head,
    };
    write_pairs(planned, middle, words);
    let done = head + 2 * pairs;
    let rest = Stretch {
        first: first + done,
        count: count - done,
        place: 3 * done,
    };
    write_edge(planned, rest, words);
}
