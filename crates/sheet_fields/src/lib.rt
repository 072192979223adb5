// The parts of a line that its fields make together: sizes, repetitions, and the ends of a placement or a cell.

#![tactic(auto)]

pub mod ends;
pub mod repetition;
pub mod size;
