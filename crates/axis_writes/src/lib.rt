// What the records of an axis write, but for its names: `axis`, `extra`, `item`, `track`, `repeat`, `end` and `spare`.

#![tactic(auto)]

pub mod axis;
pub mod spare;
pub mod template;
