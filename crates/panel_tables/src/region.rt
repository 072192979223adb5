// The lent words and bytes of a panel: regions one after the other, at fixed places.
ghost use Rattle.std.specs.Prelude.{◌≡◌, ◌≤◌, cond, get_or, ltb};
ghost use Rattle.panel_tables.specs.Regions.{first_word, first_mark, axis_words_in, area_words_in, placement_words_in, marks_in, area_bytes_in, placement_bytes_in};

use crate::area::{AREA_BYTES, AREA_WORDS};
use crate::placement::{PLACEMENT_BYTES, PLACEMENT_WORDS};
use axis_tables::layout::{AXIS_MARKS, AXIS_WORDS};
use coordinates::{Axis, word_at};

pub const ROWS: usize = AXIS_WORDS;

pub const AREAS: usize = ROWS + AXIS_WORDS;

pub const PLACEMENTS: usize = AREAS + AREA_WORDS;

pub const PANEL_WORDS: usize = PLACEMENTS + PLACEMENT_WORDS;

pub const ROW_MARKS: usize = AXIS_MARKS;

pub const AREA_NAMES_START: usize = ROW_MARKS + AXIS_MARKS;

pub const PLACEMENT_NAMES_START: usize = AREA_NAMES_START + AREA_BYTES;

pub const PANEL_BYTES: usize = PLACEMENT_NAMES_START + PLACEMENT_BYTES;

// The word at a place, of row `index` of a table of `most`; 0 past the last row.
pub(crate) fn word_under(words: &[u64], index: u32, most: u32, at: usize) -> u64
    ensures { result ≡ cond (ltb index most) (get_or words.now at 0) 0 }
{
    if index < most { word_at(words, at) } else { 0 }
}

// Where the words of an axis start.
pub fn first_word(axis: Axis) -> usize
    ensures value { result ≡ first_word axis }
    ensures below { result ≤ 12480 }
{
    axis.of(0, ROWS)
}

// Where the item marks of an axis start.
pub fn first_mark(axis: Axis) -> usize
    ensures value { result ≡ first_mark axis }
    ensures below { result ≤ 30000 }
{
    axis.of(0, ROW_MARKS)
}

// The words of an axis.
#[tactic(auto, unfolding(crate::specs::Regions::axis_words_in), using(crate::proofs::Regions::mid_here))]
pub fn axis_words(words: &[u64; PANEL_WORDS], axis: Axis) -> &[u64]
    ensures { result.now ≡ axis_words_in axis words.now }
{
    let first = first_word(axis);
    &words[first..first + AXIS_WORDS]
}

// The words of the areas.
#[tactic(auto, unfolding(crate::specs::Regions::area_words_in))]
pub fn area_words(words: &[u64; PANEL_WORDS]) -> &[u64]
    ensures { result.now ≡ area_words_in words.now }
{
    &words[AREAS..AREAS + AREA_WORDS]
}

// The words of the placements, with the lines of the cells.
#[tactic(auto, unfolding(crate::specs::Regions::placement_words_in))]
pub fn placement_words(words: &[u64; PANEL_WORDS]) -> &[u64]
    ensures { result.now ≡ placement_words_in words.now }
{
    &words[PLACEMENTS..PLACEMENTS + PLACEMENT_WORDS]
}

// The item marks of an axis.
#[tactic(auto, unfolding(crate::specs::Regions::marks_in), using(crate::proofs::Regions::mid_here))]
pub fn marks(bytes: &[u8; PANEL_BYTES], axis: Axis) -> &[u8]
    ensures { result.now ≡ marks_in axis bytes.now }
{
    let first = first_mark(axis);
    &bytes[first..first + AXIS_MARKS]
}

// The bytes of the names of areas.
#[tactic(auto, unfolding(crate::specs::Regions::area_bytes_in))]
pub fn area_bytes(bytes: &[u8; PANEL_BYTES]) -> &[u8]
    ensures { result.now ≡ area_bytes_in bytes.now }
{
    &bytes[AREA_NAMES_START..AREA_NAMES_START + AREA_BYTES]
}

// The bytes of the names of placements.
#[tactic(auto, unfolding(crate::specs::Regions::placement_bytes_in))]
pub fn placement_bytes(bytes: &[u8; PANEL_BYTES]) -> &[u8]
    ensures { result.now ≡ placement_bytes_in bytes.now }
{
    &bytes[PLACEMENT_NAMES_START..PLACEMENT_NAMES_START + PLACEMENT_BYTES]
}
