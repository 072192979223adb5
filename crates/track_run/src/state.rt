// What the filling loop carries, and the functions that it is made of.
ghost use Rattle.std.specs.Prelude.{◌≡◌};
ghost use Rattle.track_rules.specs.Steps.{word_totals};
ghost use Rattle.track_run.specs.Run.{answered_fill, fill_answer_of};
ghost use Rattle.track_run.specs.Steps.{fill_count, advance_of};

use coordinates::Fault;
use track_record::plan::{check_axis, record_count, track_count};
use track_rules::{AxisTracks, TrackWalk};

// How many records are written: 2N + 1. Refuses a gap out of range by 3, a count out of range by 4, fewer records and fewer than N item bytes
// by 10.
#[tactic(auto, unfolding(crate::specs::Run::fill_answer_of, crate::specs::Steps::fill_count))]
pub fn check_fill(lent: usize, items: usize, axis: AxisTracks) -> Result<u32, Fault>
    ensures answered { answered_fill result ≡ fill_answer_of axis lent items }
    ensures counted { (answered_fill result).count ≡ fill_count axis lent items }
{
    check_axis(axis)?;
    let count = record_count(axis);
    if lent < count as usize || items < track_count(axis) as usize {
        return Err(Fault::Short);
    }
    Ok(count)
}

// How many records are written, none where the fill is refused.
pub fn fill_count(lent: usize, items: usize, axis: AxisTracks) -> usize
    ensures { result ≡ fill_count axis lent items }
{
    match check_fill(lent, items, axis) {
        Ok(count) => count as usize,
        Err(_) => 0,
    }
}

// The state of record `index` + 1 from that of record `index`: the cursor moves after each gutter from the template's first track on.
#[tactic(auto, unfolding(crate::specs::Steps::advance_of))]
pub fn advance(components: &[u64], at: TrackWalk, index: usize) -> TrackWalk
    ensures { result ≡ advance_of (word_totals at.axis.repetitions components.now) at index }
{
    let before = at.axis.counts.negative_implicit as usize;
    if index % 2 == 1 || index < 2 * before + 2 {
        return at;
    }
    TrackWalk {
        cursor: track_record::cursor::next(components, at.axis.repetitions, at.cursor),
        ..at
    }
}
