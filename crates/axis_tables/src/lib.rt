// The tables of one axis of a panel: a small state by value, and lent arrays of words, marks and name bytes.

#![tactic(auto)]

pub mod layout;
pub mod name;
pub mod write;

ghost use Rattle.std.specs.Prelude.{◌≡◌};
ghost use Rattle.axis_tables.specs.Reads.{inner_bits, inner_in, repeat_space};

use sizing::Sizing;
use sizing::word::length_of;
use template_rules::{AutoRepeatStrategy, GridTemplateComponent, RepeatSpace};

// The space of an axis, as its `axis` record says it: whether it has an inner size, the bits of that, rule 0 `max` or 1 `min`, the
// gap's word.
#[repr(C)]
#[derive(Clone, Copy, Debug, PartialEq, Eq, Default)]
pub struct AxisSpace {
    pub definite: u32,
    pub inner: u32,
    pub rule: u32,
    pub gap: u64,
}

impl AxisSpace {
    // The bits of the inner size, where the axis has one.
    pub fn inner_bits(self) -> Option<u32>
        ensures { result ≡ inner_bits self }
    {
        (self.definite != 0).then_some(self.inner)
    }

    // The inner size, where the axis has one.
    pub fn inner(self) -> Option<f32>
        ensures { result ≡ inner_in self }
    {
        self.inner_bits().map(length_of)
    }
}

impl From<AxisSpace> for RepeatSpace {
    ghost from_gives = { λ space asked. asked ≡ repeat_space space };

    // What decides with its template how often an automatic repeat of the axis is written out.
    fn from(space: AxisSpace) -> RepeatSpace {
        RepeatSpace {
            inner: space.inner(),
            strategy: AutoRepeatStrategy::from(space.rule),
            gap: Sizing::from(space.gap),
        }
    }
}

// The components of a template, and their tracks.
#[repr(C)]
#[derive(Clone, Copy, Debug, PartialEq, Eq, Default)]
pub struct TemplateCounts {
    pub components: u32,
    pub tracks: u32,
}

// The implicit tracks before the grid, those after it, and the spare sizes that such tracks take.
#[repr(C)]
#[derive(Clone, Copy, Debug, PartialEq, Eq, Default)]
pub struct ImplicitCounts {
    pub negative: u32,
    pub positive: u32,
    pub spares: u32,
}

// The explicit size of an axis.
#[repr(C)]
#[derive(Clone, Copy, Debug, PartialEq, Eq, Default)]
pub struct AxisSize {
    pub repetitions: u32,
    pub explicit: u32,
}

// What answers are read from on an axis, beside the tables: its space, the counts of its template and of its implicit tracks, how many
// name entries there are, and its explicit size.
#[repr(C)]
#[derive(Clone, Copy, Debug, PartialEq, Eq, Default)]
pub struct AxisGrid {
    pub space: AxisSpace,
    pub template: TemplateCounts,
    pub implicit: ImplicitCounts,
    pub entries: u32,
    pub size: AxisSize,
}

// What only an edit reads of an axis: the template as it is written, how many `name` records there are, the bytes of the line-name
// store that are used, and the tracks that areas span.
#[repr(C)]
#[derive(Clone, Copy, Debug, PartialEq, Eq, Default)]
pub struct AxisRoom {
    pub template: TemplateCounts,
    pub names: u32,
    pub used: u32,
    pub areas: u32,
}

// An axis of a panel: what answers, and what edits.
#[derive(Clone, Copy, Debug, PartialEq, Eq)]
pub struct AxisState {
    pub grid: AxisGrid,
    pub room: AxisRoom,
}

// What only reading needs: whether the `axis` record was seen, and the repeat that has no `end` yet, with its tracks so far.
#[derive(Clone, Copy, Debug, PartialEq, Eq, Default)]
pub struct AxisReading {
    pub seen: bool,
    pub unended: Option<GridTemplateComponent>,
}

// An axis after the records so far, and what reading needs of it.
#[derive(Clone, Copy, Debug, PartialEq, Eq)]
pub struct AxisAfter {
    pub state: AxisState,
    pub reading: AxisReading,
}
