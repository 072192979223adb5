// A panel sheet read as a whole: its lines one after the other, what comes after the last, and the panel that it describes.

#![tactic(auto)]

pub mod end;
pub mod lines;
mod read;

use panel_tables::Panel;
pub use read::{copy_out, display_sheet, read_sheet};
use sheet_rules::{LineFault, Overlap};

// The lines of a sheet that were read: the first overlap on the way, the line of the last row of a broken picture, and the line after the
// last, or what the lines are refused by.
#[derive(Clone, Copy, Debug, PartialEq, Eq)]
pub struct LinesRead {
    pub overlap: Option<Overlap>,
    pub broken: Option<u32>,
    pub end: Result<u32, LineFault>,
}

// A sheet that was read: its first overlap, and what it is refused by beside that.
#[derive(Clone, Copy, Debug, PartialEq, Eq)]
pub(crate) struct SheetRun {
    pub overlap: Option<Overlap>,
    pub end: Result<(), LineFault>,
}

// The panel of a sheet, and the first two of its areas that share a cell.
#[derive(Clone, Copy, Debug, PartialEq, Eq)]
pub(crate) struct ReadPanel {
    pub panel: Panel,
    pub overlap: Option<Overlap>,
}
