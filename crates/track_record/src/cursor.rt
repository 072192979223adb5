// Places in a template that is written out.
ghost use Rattle.std.specs.Prelude.{◌≡◌, length, drop};
ghost use Rattle.template_rules.specs.Template.{components_of};
ghost use Rattle.track_rules.specs.Written.{repeats_of, is_fit, source_of, written};
ghost use Rattle.track_rules.specs.Steps.{word_total, word_totals, settle_of, next_of, written_at};

use sizing::{MinMax, Sizing};
use template_rules::{GridTemplateComponent, RepetitionCount, Template};
use track_rules::implicit::no_track;
use track_rules::{Cursor, TrackSource, WrittenTrack};

// How often a component is written out.
pub fn repeats(count: RepetitionCount, repetitions: u32) -> u64
    ensures { result ≡ repeats_of repetitions count }
{
    match count {
        RepetitionCount::Single => 1,
        RepetitionCount::Count(n) => n,
        RepetitionCount::AutoFill | RepetitionCount::AutoFit => u64::from(repetitions),
    }
}

// How many tracks a component writes.
pub fn total(word: u64, repetitions: u32) -> u64
    ensures { result ≡ word_total repetitions word }
{
    let component = GridTemplateComponent::from(word);
    repeats(component.count, repetitions) * component.length
}

// The cursor at or past track `at.offset` of the components from `at.component` on.
pub fn settle(components: &[u64], repetitions: u32, at: Cursor) -> Cursor
    ensures { result ≡ settle_of (drop at.component (word_totals repetitions components.now)) at.component at.offset }
{
    let rest = components.get(at.component..).unwrap_or(&[]);
    let mut offset = at.offset;
    for (passed, word) in rest.iter().enumerate() {
        let tracks = total(*word, repetitions);
        if offset < tracks {
            let component = at.component + passed;
            return Cursor { component, offset };
        }
        offset -= tracks;
    }
    Cursor {
        component: at.component + rest.len(),
        offset,
    }
}

// The cursor one track further.
pub fn next(components: &[u64], repetitions: u32, at: Cursor) -> Cursor
    ensures { result ≡ next_of (word_totals repetitions components.now) at }
{
    let Some(offset) = at.offset.checked_add(1) else {
        return at;
    };
    settle(components, repetitions, Cursor { offset, ..at })
}

// Whether `fit` writes the tracks of a component.
pub fn is_fit(count: RepetitionCount) -> bool
    ensures { result ≡ is_fit count }
{
    matches!(count, RepetitionCount::AutoFit)
}

// Where the tracks of a component come from.
pub fn source_of(count: RepetitionCount) -> TrackSource
    ensures { result ≡ source_of count }
{
    match count {
        RepetitionCount::Single | RepetitionCount::Count(_) => TrackSource::Template,
        RepetitionCount::AutoFill | RepetitionCount::AutoFit => TrackSource::Automatic,
    }
}

// A track that a component writes.
pub fn written_track(count: RepetitionCount, size: MinMax) -> WrittenTrack
    ensures { result ≡ written count size }
{
    WrittenTrack {
        size,
        source: source_of(count),
        fit: is_fit(count),
    }
}

// The track at a cursor, an auto track past the end of the template.
pub fn written_at(template: Template, at: Cursor) -> WrittenTrack
    ensures { result ≡ written_at (components_of template.entry) at }
{
    let Some(word) = template.components.get(at.component) else {
        return no_track();
    };
    let component = GridTemplateComponent::from(*word);
    if component.length == 0 {
        return no_track();
    }
    let place = component.first + at.offset % component.length;
    written_track(component.count, template.sizes.track_at(place))
}
