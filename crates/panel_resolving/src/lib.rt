// The placements of a panel with their names resolved: one, or a run of them.

#![tactic(auto)]

mod axis_run;
mod drawn;
pub mod ends;
mod find;
mod listed;
pub mod placing;
mod put;
mod resolve;
pub mod run;
mod search;
mod write;

ghost use Rattle.name_groups.specs.Groups.{Lists};

use coordinates::Axis;
use name_groups::key::Grouping;
use panel_tables::region::{PANEL_BYTES, PANEL_WORDS};

// What a placement is resolved beside: the axis and its explicit count, how many areas are drawn, and how the name entries are kept.
#[derive(Clone, Copy, Debug, PartialEq, Eq)]
pub(crate) struct Around {
    pub axis: Axis,
    pub explicit: u32,
    pub areas: u32,
    pub grouping: Grouping,
}

// What a placement of a run is resolved beside: the index of the name entries with the store of their names, and the words and bytes of the panel.
// What the index says to be listed is.
#[derive(Clone, Copy)]
pub(crate) struct Beside<'a> {
    pub around: Around,
    pub index: &'a [u64],
    pub store: &'a [u8],
    pub words: &'a [u64; PANEL_WORDS],
    pub bytes: &'a [u8; PANEL_BYTES],
    ghost lists: { Lists around.grouping index.now store.now },
}
