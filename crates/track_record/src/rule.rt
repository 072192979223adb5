// The rule for one record.
ghost use Rattle.std.specs.Prelude.{◌≡◌, ◌-◌, ◌/◌};
ghost use Rattle.template_rules.specs.Template.{components_of};
ghost use Rattle.track_rules.specs.Tracks.{answered_record};
ghost use Rattle.track_rules.specs.Written.{spare_sizes};
ghost use Rattle.track_rules.specs.Records.{item_at, record_answer_of};
ghost use Rattle.track_rules.specs.Steps.{track_with, word_totals, cursor_at, record_with, state_at};

use crate::LentTracks;
use crate::collapse::{gutter_collapses, track_collapses};
use crate::plan::{check_axis, record_count, track_count};
use coordinates::Fault;
use track_rules::grid_track::gutter;
use track_rules::implicit::{implicit, negative_at, spare_at};
use track_rules::{AxisTracks, Cursor, GridTrack, TrackSource, TrackWalk, WrittenTrack};

// The cursor that belongs to record `index`.
pub fn cursor_at(components: &[u64], axis: AxisTracks, index: u64) -> Cursor
    ensures { result ≡ cursor_at axis (word_totals axis.repetitions components.now) ((index - 1) / 2) }
{
    let track = index.saturating_sub(1) / 2;
    crate::cursor::settle(
        components,
        axis.repetitions,
        Cursor {
            component: 0,
            offset: track.saturating_sub(u64::from(axis.counts.negative_implicit)),
        },
    )
}

impl LentTracks<'_> {
    // What is carried to record `index`.
    pub fn begin_at(self, axis: AxisTracks, index: usize) -> TrackWalk
        ensures { result ≡ state_at axis (components_of self.entry.template) (item_at self.entry.items.now) index }
    {
        let plan = self.make_plan(axis);
        let cursor = cursor_at(self.template.components, axis, index as u64);
        TrackWalk { axis, plan, cursor }
    }

    // Track `index`, with the cursor that belongs to it.
    fn track_with(self, at: TrackWalk, index: u64) -> WrittenTrack
        ensures { result ≡ track_with at.axis at.plan.written (components_of self.entry.template) (spare_sizes self.entry.spares) at.cursor index }
    {
        let counts = at.axis.counts;
        let before = u64::from(counts.negative_implicit);
        if index < before {
            return negative_at(self.spares, counts.negative_implicit, index as u16);
        }
        let end = before + u64::from(at.plan.written);
        if index < end {
            return crate::cursor::written_at(self.template, at.cursor);
        }
        let source = if index < before + u64::from(counts.explicit) {
            TrackSource::Area
        } else {
            TrackSource::Positive
        };
        implicit(source, spare_at(self.spares, index - end))
    }

    // Record `index`, by what is carried to it.
    pub fn record_with(self, at: TrackWalk, index: u64) -> GridTrack
        ensures { result ≡ record_with at.axis at.plan (components_of self.entry.template) (spare_sizes self.entry.spares) (item_at self.entry.items.now) at.cursor index }
    {
        let gap = at.axis.gap;
        if index == 0 {
            return gutter(gap, true);
        }
        let t = (index - 1) / 2;
        let track = self.track_with(at, t);
        let collapsed = track_collapses(self.items, track.fit, t);
        if index % 2 == 0 {
            let shut = gutter_collapses(collapsed, at.plan.opened, index / 2);
            return gutter(gap, shut);
        }
        track_rules::grid_track::track(track, collapsed)
    }

    // Record `index` of an axis. Refuses a gap out of range by 3, a count out of range and an index of 2N + 1 or more by 4, and fewer than N
    // item bytes by 10.
    pub fn track_record(self, axis: AxisTracks, index: u32) -> Result<GridTrack, Fault>
        ensures { answered_record result ≡ record_answer_of axis (components_of self.entry.template) (spare_sizes self.entry.spares) self.entry.items.now index }
    {
        check_axis(axis)?;
        if record_count(axis) <= index {
            return Err(Fault::Count);
        }
        if self.items.len() < track_count(axis) as usize {
            return Err(Fault::Short);
        }
        let at = self.begin_at(axis, index as usize);
        Ok(self.record_with(at, index as u64))
    }
}
