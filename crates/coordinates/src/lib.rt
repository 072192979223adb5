// Layer 1: lines in the two numberings, the conversions between them, and what a line asks of the grid, with the axes, the
// refusals, the limits and the places of a lent slice that the layers above name.

#![tactic(auto)]

pub mod axis;
pub mod limit;
pub mod line;
pub mod part;
pub mod refusal;

pub use axis::Axis;
pub use line::{
    GenericGridPlacement, GridLine, Line, LinePair, Marked, MarkedLine, OriginZeroLine,
};
pub use part::{part_of, set_at, word_at};
pub use refusal::{Fault, UnknownFault, check_count};
