// Layer 4, the template's names: the name records of a sheet written out as entries, once the repetitions are known.

#![tactic(auto)]

mod component;
mod count;
pub mod record;
mod repeat;
mod write_out;

// The most components that a name record can name.
const MOST_COMPONENTS: usize = 256;

// The names of a template: the words of its name records and of its components, and the repetitions found for its automatic repeat.
#[derive(Clone, Copy)]
pub struct TemplateNames<'a> {
    pub names: &'a [u64],
    pub components: &'a [u64],
    pub repetitions: u32,
}

// The names of a component: the records up to `before` stand before it, those from there to `inside` in it; these are written
// `times` times, `tracks` lines apart. The next component begins on `line`.
#[derive(Clone, Copy, Debug, PartialEq, Eq)]
pub struct ComponentNames {
    pub before: usize,
    pub inside: usize,
    pub times: u64,
    pub tracks: u64,
    pub line: u64,
}
