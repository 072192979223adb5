// Lines and track counts by argument, whatever they are, with their answers as numbers, for programs in C and Rust.

#![tactic(auto)]

pub mod answers;
pub mod conversion;
mod number;
pub mod track;

// The tracks of an axis as counts: those before the explicit grid, those in it, and those after it.
#[repr(C)]
#[derive(Clone, Copy, Debug, PartialEq, Eq, Default)]
pub struct AxisCounts {
    pub negative: u32,
    pub explicit: u32,
    pub positive: u32,
}

// An origin-zero line and its mark, 1 where it was held at an end, or a refusal and zeros.
#[repr(C)]
#[derive(Clone, Copy, Debug, PartialEq, Eq, Default)]
pub struct ConversionAnswer {
    pub number: u32,
    pub line: i32,
    pub held: u32,
}

// A track, counted from the first of the axis and negative before it, or a refusal and 0.
#[repr(C)]
#[derive(Clone, Copy, Debug, PartialEq, Eq, Default)]
pub struct TrackNumbers {
    pub number: u32,
    pub track: i32,
}

// The record of a line: whether the axis has the line, 1 or 0, and the place of its gutter; or a refusal and zeros.
#[repr(C)]
#[derive(Clone, Copy, Debug, PartialEq, Eq, Default)]
pub struct LineRecord {
    pub number: u32,
    pub found: u32,
    pub place: u32,
}
