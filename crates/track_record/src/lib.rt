// The rule for one track record, and what it reads: the tracks that a template writes out, places among them, and what is worked
// out once for all records of an axis.

#![tactic(auto)]

pub mod collapse;
pub mod component;
pub mod count;
pub mod cursor;
pub mod plan;
pub mod rule;

use template_rules::{SizeTables, Template};
use track_rules::TrackSource;

// Tracks that repeat: the place of the first in the tables of sizes, how many there are, where they come from, and whether `fit` writes them.
#[derive(Clone, Copy, Debug, PartialEq, Eq)]
pub struct Repeated {
    pub first: u64,
    pub length: u64,
    pub source: TrackSource,
    pub fit: bool,
}

// What is lent of an axis: its template, its spare sizes, and its item bytes.
#[derive(Clone, Copy, Debug)]
pub struct LentTracks<'a> {
    pub template: Template<'a>,
    pub spares: SizeTables<'a>,
    pub items: &'a [u8],
}
