// Which tracks of a template are written next: those of a component, or single ones in a row.
ghost use Rattle.std.specs.Prelude.{◌≡◌, ◌+◌, ◌<◌, length};
ghost use Rattle.library_records.specs.Parts.{single_at, singles_of, singles_at, component_part, part_at};

use crate::TemplatePart;
use coordinates::word_at;
use template_rules::{GridTemplateComponent, RepetitionCount};
use track_record::Repeated;
use track_record::component::repeated_of;
use track_record::count::before_end;
use track_record::cursor::total;
use track_rules::{Cursor, TrackSource};

// Whether a component is one track alone, its size at a place of the tables.
#[tactic(auto, unfolding(crate::specs::Parts::single_at))]
fn single_at(word: u64, place: u64) -> bool
    ensures { result ≡ single_at place word }
{
    let component = GridTemplateComponent::from(word);
    matches!(component.count, RepetitionCount::Single) && component.first == place
}

// How many of the first components are single tracks, their sizes one after the other from `first` on; at most `left`.
fn single_count(components: &[u64], first: u64, left: u32) -> usize
    requires first_bound { first < 65536 }
    ensures { result ≡ singles_of first components.now left }
{
    components
        .iter()
        .zip(first..first + left as u64)
        .take_while(|(word, place)| single_at(**word, *place))
        .count()
}

// How many single tracks in a row start at a cursor, at most `left`.
fn singles_at(components: &[u64], at: Cursor, left: u32) -> usize
    ensures { result ≡ singles_at components.now at left }
{
    if at.offset != 0 {
        return 0;
    }
    let part = repeated_of(word_at(components, at.component));
    let rest = components.get(at.component..).unwrap_or(&[]);
    single_count(rest, part.first, left)
}

// The tracks of a component at a cursor, at most `left` of them.
#[tactic(auto, unfolding(crate::specs::Parts::component_part))]
fn component_part(word: u64, repetitions: u32, at: Cursor, left: u32) -> TemplatePart
    requires { at.component < 18446744073709551615 }
    ensures { result ≡ component_part repetitions word at left }
{
    let tracks = total(word, repetitions);
    let count = before_end(tracks, at.offset, left as usize);
    TemplatePart {
        repeated: repeated_of(word),
        count,
        after: Cursor {
            component: at.component + 1,
            offset: at.offset.saturating_sub(tracks),
        },
    }
}

// The tracks to write at a cursor, at most `left` of them.
pub(crate) fn part_at(components: &[u64], repetitions: u32, at: Cursor, left: u32) -> TemplatePart
    requires component_in_bounds { at.component < length components.now }
    requires components_len_bound { length components.now < 4294967296 }
    ensures value { result ≡ part_at repetitions components.now at left }
    ensures few { result.repeated.first + result.repeated.length < 18446744073709551616 }
{
    let component = at.component;
    let word = components[component];
    let singles = singles_at(components, at, left);
    if singles == 0 {
        return component_part(word, repetitions, at, left);
    }
    let part = repeated_of(word);
    let repeated = Repeated {
        first: part.first,
        length: singles as u64,
        source: TrackSource::Template,
        fit: false,
    };
    let after = Cursor {
        component: component + singles,
        offset: 0,
    };
    TemplatePart {
        repeated,
        count: singles,
        after,
    }
}
