// Layer 4, the resolver: which line a name stands for, and how an index or a span counts lines: where a count begins, which way it
// goes, and the line that it comes to.

#![tactic(auto)]

pub mod ask;
pub mod count;
pub mod ends;
pub mod found;

use coordinates::{GenericGridPlacement, GridLine, Line, Marked};
use name_lines::{GridAreaEnd, NthLine};

// Where a placement's name lies in the lent bytes of the placements' names.
#[derive(Clone, Copy, Debug, PartialEq, Eq)]
pub struct Name {
    pub offset: u32,
    pub length: u32,
}

// One end of a placement as written: auto, a line, a name with an index, a span, a span of a name.
#[derive(Clone, Copy, Debug, PartialEq, Eq)]
pub enum GridPlacement {
    Auto,
    Line(GridLine),
    NamedLine(Name, i16),
    Span(u16),
    NamedSpan(Name, u16),
}

// A placement in one axis: start and end each hold their own kind.
pub type WrittenLine = Line<GridPlacement>;

// One end of a placement with its names resolved.
pub type NonNamedGridPlacement = GenericGridPlacement<GridLine, u16>;

// A placement with its names resolved.
pub type ResolvedLine = Line<NonNamedGridPlacement>;

// The marks of a placement: for each end whether a step on the way to its line held it within -10,000..10,000.
pub type HeldEnds = Line<bool>;

// One end with its name resolved, and its mark.
pub type ResolvedEnd = Marked<NonNamedGridPlacement>;

// The answer of the resolver: the resolved placement, and its marks.
#[derive(Clone, Copy, Debug, PartialEq, Eq)]
pub struct ResolvedPlacement {
    pub line: ResolvedLine,
    pub held: HeldEnds,
}

// One end of a placement, and the grid line of the other, 0 where it has none, with that line's mark.
#[derive(Clone, Copy, Debug, PartialEq, Eq)]
pub struct End {
    pub placement: GridPlacement,
    pub side: GridAreaEnd,
    pub beside: Marked<GridLine>,
}

// The line of a name that an end asks for: an edge of its area first, where no number is written, then the n-th line of the name; whether a line before it was held.
#[derive(Clone, Copy, Debug, PartialEq, Eq)]
pub struct Question {
    pub name: Name,
    pub edge: Option<GridAreaEnd>,
    pub nth: NthLine,
    pub held: bool,
}

// What an end says: it is resolved, or asks for a line.
#[derive(Clone, Copy, Debug, PartialEq, Eq)]
pub enum Asked {
    Resolved(ResolvedEnd),
    Line(Question),
}
