// The walk over the records of an axis that the calls on its lines ask.
ghost use Rattle.std.specs.Prelude.{◌≡◌, ◌&&◌, ◌||◌, leb, ◌≤◌, pos, ◌-ℤ◌};
ghost use Rattle.sizing.specs.Ranges.{length_in_range};
ghost use Rattle.track_rules.specs.Tracks.{gutter_of};
ghost use Rattle.track_rules.specs.Records.{records_in};
ghost use Rattle.axis_tables.specs.Reads.{inner_in};
ghost use Rattle.panel_rules.specs.Calls.{axis_tracks};
ghost use Rattle.line_positions.specs.Steps.{walked_to};
ghost use Rattle.coordinates.specs.Lines.{to_grid_line};
ghost use Rattle.coordinates.specs.Refusals.{refused_by};
ghost use Rattle.panel_positions.specs.Cursor.{records_on, forged, answered_nearest_line, nearest_on, answered_between, lines_on};
ghost use Rattle.panel_positions.specs.Steps.{older_refusal, answered_sought, sought_on};

use crate::Between;
use axis_tables::AxisGrid;
use coordinates::Fault;
use coordinates::line::MOST_TRACKS;
use line_positions::{LineWalk, Span, step};
use panel_calls::axis_track::{LentAxis, axis_tracks};
use sizing::range::length_in_range;
use sizing::word::length_of;
use track_counts::TrackCounts;
use track_record::collapse::gutter_collapses;
use track_rules::grid_track::gutter;
use track_rules::{GridTrack, TrackWalk};

// The gutter after a track, whose record is known.
fn gutter_after(at: TrackWalk, track: GridTrack, number: u64) -> GridTrack
    ensures { result ≡ gutter_of at.axis.gap (track.collapsed || leb at.plan.opened number) }
{
    let shut = gutter_collapses(track.collapsed, at.plan.opened, number);
    gutter(at.axis.gap, shut)
}

// What the records of an axis say of its lines, the first gutter and then a track and the gutter after it at a time.
pub(crate) fn walked(lent: LentAxis, span: Span<f32>) -> LineWalk
    ensures { result ≡ walked_to span (inner_in lent.entry.grid.space) (records_on lent.entry.grid lent.entry.tables.now lent.entry.items.now) (records_in (axis_tracks lent.entry.grid)) }
{
    let inner = lent.grid.space.inner();
    let tracks = axis_tracks(lent.grid);
    let count = track_record::plan::track_count(tracks);
    let first = gutter(tracks.gap, true);
    let begun = step::begin();
    let mut at = lent.first();
    let mut walk = step::position_step(span, inner, begun, 2 * count, 0, first);
    for done in 0..count {
        let track = lent.carried(at, 2 * done as usize + 1);
        let after = gutter_after(at, track, done as u64 + 1);
        let met = step::position_step(span, inner, walk, 2 * count, 2 * done + 1, track);
        walk = step::position_step(span, inner, met, 2 * count, 2 * done + 2, after);
        at = lent.next(at, 2 * done as usize + 2);
    }
    walk
}

// Whether a count of tracks is none of a sheet's.
fn is_forged(grid: AxisGrid) -> bool
    ensures { result ≡ forged grid }
{
    let most = u32::from(MOST_TRACKS);
    most < grid.size.explicit || most < grid.implicit.negative || most < grid.implicit.positive
}

// Whether bits are those of two lengths in range.
pub(crate) fn are_lengths(span: Span<u32>) -> bool
    ensures { result ≡ (length_in_range span.low && length_in_range span.high) }
{
    length_in_range(span.low) && length_in_range(span.high)
}

// What is refused before the records are walked.
#[tactic(auto, unfolding(crate::specs::Steps::older_refusal))]
fn check_span(grid: AxisGrid, items: usize, span: Span<u32>) -> Result<(), Fault>
    ensures { refused_by result ≡ older_refusal grid items span.low span.high }
{
    if !are_lengths(span) {
        return Err(Fault::Value);
    }
    if is_forged(grid) {
        return Err(Fault::Count);
    }
    if items < track_record::plan::track_count(axis_tracks(grid)) as usize {
        return Err(Fault::Short);
    }
    Ok(())
}

// What is sought of the lines of an axis: a walk over records that are all definite.
fn sought_on(lent: LentAxis, span: Span<u32>) -> Result<LineWalk, Fault>
    ensures { answered_sought result ≡ sought_on lent.entry.grid lent.entry.tables.now lent.entry.items.now span.low span.high }
{
    check_span(lent.grid, lent.items.len(), span)?;
    let pixels = Span {
        low: length_of(span.low),
        high: length_of(span.high),
    };
    let walk = walked(lent, pixels);
    if walk.definite {
        Ok(walk)
    } else {
        Err(Fault::Indefinite)
    }
}

// The grid line at a place of an axis's lines.
fn grid_line_at(counts: TrackCounts, place: u32) -> i32
    requires { place ≤ 30000 }
    ensures { result ≡ to_grid_line counts.explicit (pos place -ℤ pos counts.negative_implicit) }
{
    let before = u32::from(counts.negative_implicit);
    if before <= place {
        (place - before + 1) as i32
    } else {
        -1 - (before - place + u32::from(counts.explicit)) as i32
    }
}

// The line of an axis nearest to a cursor.
pub(crate) fn nearest_on(lent: LentAxis, cursor: u32) -> Result<i32, Fault>
    ensures { answered_nearest_line result ≡ nearest_on lent.entry.grid lent.entry.tables.now lent.entry.items.now cursor }
{
    let sought = sought_on(lent, Span::at(cursor))?;
    let counts = axis_tracks(lent.grid).counts;
    Ok(grid_line_at(counts, sought.nearest))
}

// The lines of an axis around a span.
pub(crate) fn lines_on(lent: LentAxis, span: Span<u32>) -> Result<Between, Fault>
    ensures { answered_between result ≡ lines_on lent.entry.grid lent.entry.tables.now lent.entry.items.now span.low span.high }
{
    let sought = sought_on(lent, span)?;
    Ok(Between {
        below: sought.below,
        upto: sought.upto,
    })
}
