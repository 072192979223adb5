// Answers of the calls on a panel as structs of numbers, for programs in C and Rust.

#![tactic(auto)]

pub mod axis;
pub mod numbers;
pub mod part;
pub mod sheet;

use panel_tables::{Grid, Panel};

// The panel of a sheet, or a refusal and zeros: its number, 0 where there is none, and its line; with 12 the first two areas that share a
// cell, numbered from 1, else zeros.
#[repr(C)]
#[derive(Clone, Copy, Debug, PartialEq, Eq, Default)]
pub struct SheetAnswer {
    pub number: u32,
    pub line: u32,
    pub earlier: u32,
    pub later: u32,
    pub panel: Panel,
}

// What answers are read from of a sheet for display, with the first two of its areas that share a cell, or a refusal and zeros.
#[repr(C)]
#[derive(Clone, Copy, Debug, PartialEq, Eq, Default)]
pub struct DisplayAnswer {
    pub number: u32,
    pub line: u32,
    pub earlier: u32,
    pub later: u32,
    pub grid: Grid,
}

// A panel, or a refusal: its number, 0 where there is none, and its line. On a refusal it comes back as it came.
#[repr(C)]
#[derive(Clone, Copy, Debug, PartialEq, Eq, Default)]
pub struct PanelAnswer {
    pub number: u32,
    pub line: u32,
    pub panel: Panel,
}

// The explicit size of an axis, or a refusal and zeros.
#[repr(C)]
#[derive(Clone, Copy, Debug, PartialEq, Eq, Default)]
pub struct SizeAnswer {
    pub number: u32,
    pub repetitions: u32,
    pub explicit: u32,
}

// A count, or a refusal and 0.
#[repr(C)]
#[derive(Clone, Copy, Debug, PartialEq, Eq, Default)]
pub struct CountAnswer {
    pub number: u32,
    pub count: u64,
}

// Where a name lies in the store of its axis, or a refusal and zeros. Length 0: there is no such name.
#[repr(C)]
#[derive(Clone, Copy, Debug, PartialEq, Eq, Default)]
pub struct NameAnswer {
    pub number: u32,
    pub offset: u32,
    pub length: u32,
}

// A resolved placement, or a refusal and zeros: its axis, 2 more where it is a cell's half, for each end its kind (0 `auto`, 1 `line`,
// 3 `span`) and number, and then for each end its mark: 1 where a step on the way to its line held it.
#[repr(C)]
#[derive(Clone, Copy, Debug, PartialEq, Eq, Default)]
pub struct PlacementNumbers {
    pub number: u32,
    pub axis: u32,
    pub startkind: u32,
    pub startnumber: i32,
    pub endkind: u32,
    pub endnumber: i32,
    pub startheld: u32,
    pub endheld: u32,
}
