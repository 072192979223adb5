// What the calls on a panel answer, runs of them, and the laws of the third demand: definitions and proofs alone.

#![tactic(auto)]

use coordinates::Axis;
use name_resolver::ResolvedPlacement;

// A resolved placement with its axis, and whether it is a cell's half.
#[derive(Clone, Copy, Debug, PartialEq, Eq)]
pub struct PlacedLine {
    pub axis: Axis,
    pub cell: bool,
    pub placed: ResolvedPlacement,
}
