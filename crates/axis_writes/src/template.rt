// What `track`, `repeat` and `end` do to an axis.
ghost use Rattle.std.specs.Prelude.{◌≡◌, ◌+◌, set, Ok};
ghost use Rattle.sheet_forms.specs.Answers.{repetition_said};
ghost use Rattle.template_rules.specs.Template.{count_kind, count_number};
ghost use Rattle.axis_tables.specs.Readings.{axis_reading, repeat_numbers};
ghost use Rattle.axis_tables.specs.Store.{InWords, answered_axis, put_single, put_repeated, put_track, open_repeat, close_repeat};
ghost use Rattle.axis_tables.specs.View.{repeat_kind};

use axis_tables::layout::{MAXIMUMS, MINIMUMS, TEMPLATE_TRACKS};
use axis_tables::{AxisAfter, TemplateCounts};
use coordinates::{Fault, set_at};
use sheet_forms::{Repetition, TrackSizes};
use template_rules::{GridTemplateComponent, RepetitionCount};

// The most components of a template.
const MOST_COMPONENTS: u32 = template_rules::component::MOST_COMPONENTS as u32;

// The most tracks of a repeat.
const MOST_REPEATED: u64 = 32;

// The largest number of a counted repeat.
const MOST_NUMBER: u32 = u16::MAX as u32;

// The sizes of a track of that number.
fn put_sizes(words: &mut [u64], track: u32, sizes: TrackSizes)
    ensures { words.new ≡ set (set words.old (64 + track) sizes.min) (2112 + track) sizes.max }
{
    set_at(words, MINIMUMS + track as usize, sizes.min);
    set_at(words, MAXIMUMS + track as usize, sizes.max);
}

// A track outside a repeat, which is a component. 8: a 65th component.
#[tactic(auto, unfolding(axis_tables::specs::Store::put_single))]
fn put_single(axis: AxisAfter, words: &mut [u64], sizes: TrackSizes) -> Result<AxisAfter, Fault>
    ensures { record { answer = answered_axis axis.state (axis_reading axis.reading) result; words = words.new } ≡ put_single axis.state (axis_reading axis.reading) words.old sizes.min sizes.max }
{
    let TemplateCounts { components, tracks } = axis.state.room.template;
    if MOST_COMPONENTS <= components || TEMPLATE_TRACKS as u32 <= tracks {
        return Err(Fault::Crowded);
    }
    let word = u64::from(GridTemplateComponent {
        count: RepetitionCount::Single,
        first: u64::from(tracks),
        length: 1,
    });
    set_at(words, components as usize, word);
    put_sizes(words, tracks, sizes);
    let mut after = axis;
    after.state.room.template = TemplateCounts {
        components: components + 1,
        tracks: tracks + 1,
    };
    Ok(after)
}

// A track of the open repeat. 8: a 33rd.
#[tactic(auto, unfolding(axis_tables::specs::Store::put_repeated))]
fn put_repeated(
    axis: AxisAfter,
    repeat: GridTemplateComponent,
    words: &mut [u64],
    sizes: TrackSizes,
) -> Result<AxisAfter, Fault>
    ensures { record { answer = answered_axis axis.state (axis_reading axis.reading) result; words = words.new } ≡ put_repeated axis.state (axis_reading axis.reading) (repeat_numbers repeat) words.old sizes.min sizes.max }
{
    let tracks = axis.state.room.template.tracks;
    if MOST_REPEATED <= repeat.length || TEMPLATE_TRACKS as u32 <= tracks {
        return Err(Fault::Crowded);
    }
    put_sizes(words, tracks, sizes);
    let mut after = axis;
    after.state.room.template.tracks = tracks + 1;
    after.reading.unended = Some(GridTemplateComponent {
        length: repeat.length + 1,
        ..repeat
    });
    Ok(after)
}

// A track of those sizes.
#[tactic(auto, unfolding(axis_tables::specs::Store::put_track))]
pub fn put_track(axis: AxisAfter, words: &mut [u64], sizes: TrackSizes) -> Result<AxisAfter, Fault>
    ensures { record { answer = answered_axis axis.state (axis_reading axis.reading) result; words = words.new } ≡ put_track axis.state (axis_reading axis.reading) words.old sizes.min sizes.max }
{
    match axis.reading.unended {
        None => put_single(axis, words, sizes),
        Some(repeat) => put_repeated(axis, repeat, words, sizes),
    }
}

// How often a repeat is written out, as its line says.
fn count_of(repetition: Repetition) -> RepetitionCount
    ensures kind { count_kind result ≡ repeat_kind (repetition_said (Ok repetition)).kind }
    ensures number { count_number result ≡ (repetition_said (Ok repetition)).number }
{
    match repetition {
        Repetition::Count(number) => RepetitionCount::Count(u64::from(number)),
        Repetition::Fill => RepetitionCount::AutoFill,
        Repetition::Fit => RepetitionCount::AutoFit,
    }
}

// Opens a repeat. 1: inside a repeat; 4: a number above 65,535; 8: a 65th component.
#[tactic(auto, unfolding(axis_tables::specs::Store::open_repeat))]
pub fn open_repeat(axis: AxisAfter, repetition: Repetition) -> Result<AxisAfter, Fault>
    ensures { answered_axis axis.state (axis_reading axis.reading) result ≡ open_repeat axis.state (axis_reading axis.reading) (repetition_said (Ok repetition)).kind (repetition_said (Ok repetition)).number }
{
    if axis.reading.unended.is_some() {
        return Err(Fault::Unread);
    }
    if let Repetition::Count(number) = repetition
        && MOST_NUMBER < number
    {
        return Err(Fault::Count);
    }
    let template = axis.state.room.template;
    if MOST_COMPONENTS <= template.components {
        return Err(Fault::Crowded);
    }
    let mut after = axis;
    after.reading.unended = Some(GridTemplateComponent {
        count: count_of(repetition),
        first: u64::from(template.tracks),
        length: 0,
    });
    Ok(after)
}

// Closes the open repeat: its component is written. 1: no repeat is open.
#[tactic(auto, unfolding(axis_tables::specs::Store::close_repeat))]
pub fn close_repeat(axis: AxisAfter, words: &mut [u64]) -> Result<AxisAfter, Fault>
    ensures { record { answer = answered_axis axis.state (axis_reading axis.reading) result; words = words.new } ≡ close_repeat axis.state (axis_reading axis.reading) words.old }
{
    let Some(repeat) = axis.reading.unended else {
        return Err(Fault::Unread);
    };
    let components = axis.state.room.template.components;
    if MOST_COMPONENTS <= components {
        return Err(Fault::Crowded);
    }
    set_at(words, components as usize, u64::from(repeat));
    let mut after = axis;
    after.state.room.template.components = components + 1;
    after.reading.unended = None;
    Ok(after)
}
