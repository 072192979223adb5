// What the records of a panel write beside those of its axes: `area`, `place` and `cell`.

#![tactic(auto)]

pub mod area_record;
pub mod place_record;
