// Layer 4, the name entries of an axis in a lent table of words, their bytes in the axis's lent store, and the entry calls: a line
// and a name into them, or its refusal.

#![tactic(auto)]

pub mod bytes;
pub mod enter;
pub mod entry;
pub mod line_names;
pub mod name;
pub mod place;

// The last line that can have a name.
pub const LAST_LINE: u32 = 20000;

// The most entries of an axis.
pub const MOST_ENTRIES: usize = 4096;

// An entry: its line, counted from 1, and where the bytes of its name lie in the store.
#[derive(Clone, Copy, Debug, PartialEq, Eq, Default)]
pub struct NameEntry {
    pub line: u32,
    pub offset: u32,
    pub length: u32,
}

// Where a name of a sheet stands and where its bytes lie: the component before which it stands (place 0), or in which, after `place - 1`
// of its tracks, and its part of the store.
#[derive(Clone, Copy, Debug, PartialEq, Eq)]
pub struct NamePlace {
    pub component: u32,
    pub place: u32,
    pub offset: u32,
    pub length: u32,
}

// The names of an axis: its entries as words, and the store that holds their bytes.
#[derive(Clone, Copy)]
pub struct Names<'a> {
    pub entries: &'a [u64],
    pub store: &'a [u8],
}
