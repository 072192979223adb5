// Layer 3: what one walk over a template gathers.

#![tactic(auto)]

mod component;
pub mod summary;
mod tracks;
