// The part of a run that is of one axis.
ghost use Rattle.std.specs.Prelude.{◌+◌, ◌≤◌};

use crate::Around;

// The placements of an axis among `count` from `first` on, and what they are resolved beside.
#[derive(Clone, Copy, Debug, PartialEq, Eq)]
pub(crate) struct Run {
    pub around: Around,
    pub first: u32,
    pub count: u32,
    ghost in_range: { first + count ≤ 4294967295 },
}
