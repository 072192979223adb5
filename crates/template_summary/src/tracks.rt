// The tracks of a component, walked in order: whether each has a fixed kind, and what they measure.
ghost use Rattle.std.specs.Prelude.{◌≡◌};
ghost use mathlib.Core.List.{foldl};
ghost use Rattle.template_rules.specs.Template.{track_at, tracks_from};
ghost use Rattle.template_rules.specs.Space.{repeated_space, space_in};
ghost use Rattle.template_rules.specs.Steps.{no_tracks, of_track, add_totals, track_step, totals_of};

use crate::component::WordComponent;
use coordinates::word_at;
use sizing::definite::track_definite_value;
use template_rules::{RepetitionCount, Template, TrackTotals};

// Whether the track at a place has a fixed kind, and what it measures, from one decoding: it has a definite size exactly where its kind is
// fixed.
fn track_totals(template: Template<'_>, place: u64, inner: f32) -> TrackTotals
    ensures { result ≡ of_track inner (track_at template.entry.sizes.minimums.now template.entry.sizes.maximums.now place) }
{
    let minimum = word_at(template.sizes.minimums, place as usize);
    let maximum = word_at(template.sizes.maximums, place as usize);
    let size = track_definite_value(minimum, maximum, inner);
    TrackTotals {
        fixed: size.is_some(),
        space: size.unwrap_or(0.0),
    }
}

// What a track inside the automatic repeat counts as, by what it measures: less than 1 is taken as 1.
#[tactic(auto, unfolding(template_rules::specs::Space::repeated_space))]
fn repeated_space(space: f32) -> f32
    ensures { result ≡ repeated_space space }
{
    if space < 1.0 { 1.0 } else { space }
}

// What a track counts as in a component, by what it measures.
fn space_in(count: RepetitionCount, space: f32) -> f32
    ensures { result ≡ space_in count space }
{
    match count {
        RepetitionCount::Single | RepetitionCount::Count(_) => space,
        RepetitionCount::AutoFill | RepetitionCount::AutoFit => repeated_space(space),
    }
}

// The step for a track of a repeat.
fn add_track(totals: TrackTotals, count: RepetitionCount, track: TrackTotals) -> TrackTotals
    ensures { result ≡ add_totals count totals track }
{
    TrackTotals {
        fixed: totals.fixed & track.fixed,
        space: totals.space + space_in(count, track.space),
    }
}

// The tracks of a repeat, in order.
fn repeat_totals(template: Template<'_>, component: WordComponent, inner: f32) -> TrackTotals
    ensures { result ≡ foldl (track_step component.parts.count inner) no_tracks (tracks_from template.entry.sizes.minimums.now template.entry.sizes.maximums.now component.parts.first component.parts.length) }
{
    let parts = component.parts;
    let mut totals = TrackTotals {
        fixed: true,
        space: 0.0,
    };
    for place in parts.first..parts.first + parts.length {
        let track = track_totals(template, place, inner);
        totals = add_track(totals, parts.count, track);
    }
    totals
}

// The tracks of a component: of a single its one track.
pub(crate) fn component_totals(
    template: Template<'_>,
    component: WordComponent,
    inner: f32,
) -> TrackTotals
    ensures { result ≡ totals_of inner component.parts.count (tracks_from template.entry.sizes.minimums.now template.entry.sizes.maximums.now component.parts.first component.parts.length) }
{
    let RepetitionCount::Single = component.parts.count else {
        return repeat_totals(template, component, inner);
    };
    track_totals(template, component.parts.first, inner)
}
