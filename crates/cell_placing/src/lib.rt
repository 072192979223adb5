// Document 02, Req 10: automatic placing (CSS Grid Level 1, 8.5, row flow): where cells land, from their sides in both axes.

#![tactic(auto)]

ghost use Rattle.std.specs.Prelude.{length};
ghost use Rattle.cell_placing.specs.Steps.{Ready};
ghost use Rattle.cell_placing.specs.Once.{Ready-prop};

pub mod cursor;
pub mod land;
pub mod pass;
pub mod words;

use cell_sides::Side;
use coordinates::limit::MOST_ITEMS;

// The most cells of a call.
pub const MOST_PLACED: usize = MOST_ITEMS;

// How cells are packed: in sparse packing no automatic cell lands before the one placed last, in dense packing each takes the first place.
#[derive(Clone, Copy, Debug, PartialEq, Eq)]
pub enum Packing {
    Sparse,
    Dense,
}

// The groups in which cells are placed, in their order: those with a line in both axes, those that have one in their row alone, the rest.
#[derive(Clone, Copy, Debug, PartialEq, Eq)]
pub enum Group {
    FixedInBoth,
    FixedInRow,
    Rest,
}

// A cell by its sides; none where an edge leaves the lines.
#[derive(Clone, Copy, Debug, PartialEq, Eq)]
pub struct Item {
    pub column: Option<Side>,
    pub row: Option<Side>,
}

// The cells of a call: the last column line, the words of their sides, and how they are packed.
#[derive(Clone, Copy)]
pub(crate) struct Cells<'a> {
    pub last: u16,
    pub items: &'a [u64],
    pub packing: Packing,
}

// The turn of a cell: the cells of its call, its index, and the words of the rectangles that are placed, 0 for a cell whose turn comes later.
// All before it have landed, and no other.
#[derive(Clone, Copy)]
pub(crate) struct Turn<'a> {
    pub cells: Cells<'a>,
    pub index: u32,
    pub placed: &'a [u64],
    ghost ready: { Ready cells.packing cells.last (length cells.items.now) cells.items.now placed.now index } by { Ready-prop cells.packing cells.last (length cells.items.now) cells.items.now placed.now index },
}
