// Document 02, Req 10: the rectangles of cells that are placed, and the first place that is free beside them. They are kept as a list,
// a word each, and not as a map of cells, since one may cover 10,000 times 10,000 of these: a search jumps past what is in its way.

#![tactic(auto)]

pub mod search;
pub mod way;
pub mod word;

use coordinates::LinePair;

// A rectangle of cells, by its lines from 1.
#[derive(Clone, Copy, Debug, PartialEq, Eq)]
pub struct Rectangle {
    pub columns: LinePair,
    pub rows: LinePair,
}

// A size in tracks.
#[derive(Clone, Copy, Debug, PartialEq, Eq)]
pub struct Size {
    pub columns: u32,
    pub rows: u32,
}

// The place of a rectangle: the row and the column at which it starts.
#[derive(Clone, Copy, Debug, Default, PartialEq, Eq)]
pub struct Place {
    pub row: u32,
    pub column: u32,
}
