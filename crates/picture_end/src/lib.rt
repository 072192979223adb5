// Where a picture ends: what a line is to it, whether a row of it still follows in a sheet, and whether a line is the last row of a broken one.

#![tactic(auto)]

pub mod class;
pub mod follow;
pub mod last;

pub use class::line_class;
pub use follow::row_follows;
pub use last::last_broken_row;
