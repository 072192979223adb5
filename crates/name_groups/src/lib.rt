// Name entries in groups by keys of their names, made for one run: where the entries of a name lie, and whether they list its lines.

#![tactic(auto)]

pub mod group;
pub mod index;
pub mod key;
mod listed;
