// Limits of a panel that several layers name.

// The most `place` and `cell` lines of a panel, together.
pub const MOST_ITEMS: usize = 256;

// The most placements of a panel: one for each `place` line, two for each `cell` line.
pub const MOST_PLACEMENTS: usize = 2 * MOST_ITEMS;

// How many numbers a placement takes in a run.
pub const PLACEMENT_NUMBERS: usize = 8;

// The numbers of a run of as many placements as a panel holds.
pub const PLACEMENT_RUN: usize = MOST_PLACEMENTS * PLACEMENT_NUMBERS;

// The longest name, in bytes.
pub const LONGEST_NAME: usize = 32;

// The bytes of the store of an axis's names.
pub const STORE_BYTES: usize = 32768;
