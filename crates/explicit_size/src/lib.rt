// Layer 3: the repetitions of an automatic repeat, and the explicit size of an axis.

#![tactic(auto)]

pub mod repeat;
mod repetitions;
pub mod size;

pub use repeat::template_repetitions;
pub use size::compute_explicit_grid_size_in_axis;
