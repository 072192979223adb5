// The tables of a panel beside those of its axes: the drawn areas and the placements, with the bytes of their names.

#![tactic(auto)]

pub mod area;
pub mod axis;
pub mod number;
pub mod placement;
pub mod region;
pub mod stage;
mod start;

ghost use Rattle.std.specs.Prelude.{◌≡◌, eqb};
ghost use Rattle.panel_tables.specs.Widths.{is_unread};

use axis_tables::{AxisGrid, AxisReading, AxisRoom};
use coordinates::Axis;
use region::{PANEL_BYTES, PANEL_WORDS};
use stage::Stage;

// What answers are read from, beside the tables: both axes, and how many areas, placements and cells the tables hold; of the placements each
// cell is two, its columns and then its rows.
#[repr(C)]
#[derive(Clone, Copy, Debug, PartialEq, Eq, Default)]
pub struct Grid {
    pub columns: AxisGrid,
    pub rows: AxisGrid,
    pub areas: u32,
    pub placements: u32,
    pub cells: u32,
}

// What only an edit reads: of both axes, and how many bytes the names of areas and of placements take.
#[repr(C)]
#[derive(Clone, Copy, Debug, PartialEq, Eq, Default)]
pub struct Room {
    pub columns: AxisRoom,
    pub rows: AxisRoom,
    pub areabytes: u32,
    pub placementbytes: u32,
}

// A panel by value: what answers, and what edits.
#[repr(C)]
#[derive(Clone, Copy, Debug, PartialEq, Eq, Default)]
pub struct Panel {
    pub grid: Grid,
    pub room: Room,
}

// What is lent of a panel to be read: its words and bytes, and the stores of the columns' and of the rows' line names.
#[derive(Clone, Copy)]
pub struct LentPanel<'a> {
    pub words: &'a [u64; PANEL_WORDS],
    pub bytes: &'a [u8; PANEL_BYTES],
    pub columnstore: &'a [u8],
    pub rowstore: &'a [u8],
}

// What reading keeps of a picture: how many rows were read, the number of words of the last where there is one, and whether the cells of a
// name are no rectangle.
#[derive(Clone, Copy, Debug, PartialEq, Eq)]
pub struct PictureReading {
    pub rows: u32,
    pub width: Option<u32>,
    pub broken: bool,
    ghost counted: { eqb rows 0 ≡ is_unread width },
}

// What only reading needs: how far the sheet has come in the order of its kinds, how many lines were accepted, the picture, and what each
// axis needs.
#[derive(Clone, Copy, Debug, PartialEq, Eq)]
pub struct Reading {
    pub stage: Stage,
    pub lines: u32,
    pub picture: PictureReading,
    pub columns: AxisReading,
    pub rows: AxisReading,
}

// The edges of an area, as lines.
#[derive(Clone, Copy, Debug, PartialEq, Eq)]
pub struct AreaEdges {
    pub rowstart: u32,
    pub rowend: u32,
    pub columnstart: u32,
    pub columnend: u32,
}

// An area as its table holds it: its edges, and where the bytes of its name lie.
#[derive(Clone, Copy, Debug, PartialEq, Eq)]
pub struct AreaPlace {
    pub edges: AreaEdges,
    pub offset: u32,
    pub length: u32,
}

// An end of a placement: kinds 0 to 4 are `auto line named span nspan`; the number is 0 where it is unused.
#[derive(Clone, Copy, Debug, PartialEq, Eq)]
pub struct PlacementEnd {
    pub kind: u32,
    pub number: i32,
}

// An end as its table holds it: with where the bytes of its name lie.
#[derive(Clone, Copy, Debug, PartialEq, Eq)]
pub struct EndPlace {
    pub end: PlacementEnd,
    pub offset: u32,
    pub length: u32,
}

// A placement as its table holds it, and whether it is a cell's half.
#[derive(Clone, Copy, Debug, PartialEq, Eq)]
pub struct PlacementPlace {
    pub axis: Axis,
    pub cell: bool,
    pub start: EndPlace,
    pub end: EndPlace,
}
