// Document 02, Req 10: where a cell lies in one axis, from its settled ends (CSS Grid Level 1, 8.3.1); over line numbers alone.

#![tactic(auto)]

pub mod cell;

use coordinates::{GenericGridPlacement, LinePair};

// A cell in one axis that stays among the lines: it has so many tracks and no line, or it lies between two lines.
#[derive(Clone, Copy, Debug, PartialEq, Eq)]
pub enum Side {
    Free(u32),
    Fixed(LinePair),
}

// A settled end: no line, a line by its number, or so many tracks.
pub type CellEnd = GenericGridPlacement<u32, u32>;
