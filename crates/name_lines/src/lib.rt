// Layer 4, the lines that bear a name: those of entries, and the edges of drawn areas. A search answers with the line that it comes
// to, or with how many lines of the name were still to be passed over.

#![tactic(auto)]

pub mod suffix;

// The side that a search looks at: the lines from one on, or those before it, the last first.
#[derive(Clone, Copy, Debug, PartialEq, Eq)]
pub enum Way {
    Up,
    Down,
}

// The n-th line of a name: on from a line or back from one, after so many lines of it.
#[derive(Clone, Copy, Debug, PartialEq, Eq)]
pub struct NthLine {
    pub way: Way,
    pub from: u32,
    pub over: u32,
}

impl NthLine {
    // The first line.
    pub const FIRST: NthLine = NthLine {
        way: Way::Up,
        from: 0,
        over: 0,
    };
}

// A name in two parts: a stem, and the suffix of an edge or nothing after it.
#[derive(Clone, Copy)]
pub struct JoinedName<'a> {
    pub stem: &'a [u8],
    pub edge: Option<GridAreaEnd>,
}

// An edge of an area, and the end of a placement that is placed.
#[derive(Clone, Copy, Debug, PartialEq, Eq)]
pub enum GridAreaEnd {
    Start,
    End,
}
