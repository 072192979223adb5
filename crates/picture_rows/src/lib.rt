// One row of a picture in the table of areas: its runs of equal words one after the other, then its tracks on both axes.

#![tactic(auto)]

pub mod draw;
pub mod row;

pub use row::draw_row;
