// Layer 3: the components of a template, and the explicit size of an axis.

#![tactic(auto)]

pub mod component;
pub mod gathered;
pub mod strategy;
pub mod whole;

use sizing::Sizing;

// Tables of the words of sizes: minimums, and at the same places maximums.
#[derive(Clone, Copy, Debug)]
pub struct SizeTables<'a> {
    pub minimums: &'a [u64],
    pub maximums: &'a [u64],
}

// A template: the words of its components, and the sizes of the axis's tracks.
#[derive(Clone, Copy, Debug)]
pub struct Template<'a> {
    pub components: &'a [u64],
    pub sizes: SizeTables<'a>,
}

// How often a component is written out: a single track, a counted repeat, or an automatic one.
#[derive(Clone, Copy, Debug, PartialEq, Eq)]
pub enum RepetitionCount {
    Single,
    Count(u64),
    AutoFill,
    AutoFit,
}

// A component of a template: its tracks are `length` of the axis's, from `first` on.
#[derive(Clone, Copy, Debug, PartialEq, Eq)]
pub struct GridTemplateComponent {
    pub count: RepetitionCount,
    pub first: u64,
    pub length: u64,
}

// Which repetitions an inner size asks for: rule max, or rule min.
#[derive(Clone, Copy, Debug, PartialEq, Eq)]
pub enum AutoRepeatStrategy {
    MaxRepetitionsThatDoNotOverflow,
    MinRepetitionsThatDoOverflow,
}

// What decides with a template how often its automatic repeat is written out: the inner size, where there is one, which repetitions it asks
// for, and the gap.
#[derive(Clone, Copy, Debug, PartialEq)]
pub struct RepeatSpace {
    pub inner: Option<f32>,
    pub strategy: AutoRepeatStrategy,
    pub gap: Sizing,
}

// The explicit size of an axis: repetitions of the automatic repeat, tracks of the template, and explicit tracks.
#[derive(Clone, Copy, Debug, PartialEq, Eq)]
pub struct ExplicitSize {
    pub repetitions: u32,
    pub template: u32,
    pub explicit: u32,
}

// The tracks of a component: whether each has a fixed kind, and the sum of what they measure.
#[derive(Clone, Copy, Debug, PartialEq)]
pub struct TrackTotals {
    pub fixed: bool,
    pub space: f32,
}

// A template so far: whether a repeat has no tracks or a count of 0, whether every track has a fixed kind, how many automatic repeats there are,
// the tracks outside them, those before the first and those in it, the space used outside, and that of one repetition.
#[derive(Clone, Copy, Debug, PartialEq)]
pub struct TemplateSummary {
    pub empty: bool,
    pub fixed: bool,
    pub automatic: u64,
    pub outside: u64,
    pub before: u64,
    pub repeated: u64,
    pub used: f32,
    pub once: f32,
}

// A template written out: the repetitions of its automatic repeat, and its tracks, not cut.
#[derive(Clone, Copy, Debug, PartialEq, Eq, Default)]
pub struct TemplateSize {
    pub repetitions: u32,
    pub tracks: u64,
}
