// The least resize that matters: of all whole sizes of an axis the nearest at which its automatic repeat is written out another number of times.

#![tactic(auto)]

pub mod answer;
pub mod percentage;
pub mod search;
pub mod whole;

pub use answer::resize_answer;
pub use search::least_resize;

// The answer for an axis, or a refusal and zeros: whether there is a size at which the count differs, 1 or 0, and the least resize.
#[repr(C)]
#[derive(Clone, Copy, Debug, PartialEq, Eq, Default)]
pub struct ResizeAnswer {
    pub number: u32,
    pub found: u32,
    pub size: u32,
}
