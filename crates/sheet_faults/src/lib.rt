// One line of a panel sheet: the faults that it has before it is written, and the area that it shares a cell with.

#![tactic(auto)]

pub mod fault;
pub mod overlap;
