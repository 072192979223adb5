// The placements: two words each, start and end, then a word for the line of each cell; the bytes of their names one after the other.
ghost use Rattle.std.specs.Prelude.{◌≡◌};
ghost use Rattle.panel_tables.specs.Placements.{axis_mark, cell_line, end_of, end_word, placement_at};

use crate::number::{count_of, number_of};
use crate::region::word_under;
use crate::{EndPlace, PlacementEnd, PlacementPlace};
use coordinates::Axis;
use coordinates::limit::LONGEST_NAME;

// The most `place` and `cell` lines of a panel, together, as it counts them.
pub const MOST_ITEMS: u32 = coordinates::limit::MOST_ITEMS as u32;

// The most placements of the table, as it counts them.
pub const MOST_PLACEMENTS: u32 = coordinates::limit::MOST_PLACEMENTS as u32;

// Where the lines of the cells start, behind the words of the placements.
pub const CELL_LINES: usize = 2 * MOST_PLACEMENTS as usize;

pub const PLACEMENT_WORDS: usize = CELL_LINES + MOST_ITEMS as usize;

pub const PLACEMENT_BYTES: usize = CELL_LINES * LONGEST_NAME;

// What the mark of a placement counts in its first word.
pub const MARK_PART: u64 = 0x100_0000_0000_0000;

// The mark of a placement is the number of its axis, and this more where it is a cell's half.
const CELL_MARK: u32 = 2;

impl From<u64> for EndPlace {
    ghost from_gives = { λ word end. end ≡ end_of word };

    // An end from its word. Any word gives one.
    #[tactic(auto, unfolding(crate::specs::Placements::end_of), using(crate::proofs::Signs::number_back))]
    fn from(word: u64) -> EndPlace {
        let end = PlacementEnd {
            kind: (word % 8) as u32,
            number: number_of((word / 8 % 0x2_0000) as u32),
        };
        EndPlace {
            end,
            offset: (word / 0x1_0000_0000 % 0x1_0000) as u32,
            length: (word / 0x1_0000_0000_0000 % 0x100) as u32,
        }
    }
}

impl From<EndPlace> for u64 {
    ghost from_gives = { λ end word. word ≡ end_word 0 end.end end.offset end.length };

    // The word of an end, the second of a placement.
    #[tactic(auto, unfolding(crate::specs::Placements::end_word))]
    fn from(end: EndPlace) -> u64 {
        let kind = u64::from(end.end.kind) % 8;
        let count = u64::from(count_of(end.end.number)) % 0x2_0000;
        let offset = u64::from(end.offset) % 0x1_0000;
        let length = u64::from(end.length) % 0x100;
        kind + count * 8 + offset * 0x1_0000_0000 + length * 0x1_0000_0000_0000
    }
}

// The first word of a placement: that of its start, with its axis and whether it is a cell's half.
#[tactic(auto, unfolding(crate::specs::Placements::end_word))]
pub fn start_with_mark(axis: Axis, cell: bool, start: EndPlace) -> u64
    ensures { result ≡ end_word (axis_mark axis cell) start.end start.offset start.length }
{
    let mark = u32::from(axis) + if cell { CELL_MARK } else { 0 };
    u64::from(start) + u64::from(mark) * MARK_PART
}

// Placement i of the table. Any words give one.
#[tactic(auto, unfolding(crate::specs::Placements::placement_at))]
pub fn placement_at(words: &[u64], index: u32) -> PlacementPlace
    ensures { result ≡ placement_at words.now index }
{
    let at = index as usize;
    let first = word_under(words, index, MOST_PLACEMENTS, at + at);
    let mark = (first / MARK_PART) as u32;
    let axis = Axis::from(mark % CELL_MARK);
    let start = EndPlace::from(first);
    let end = EndPlace::from(word_under(words, index, MOST_PLACEMENTS, at + at + 1));
    PlacementPlace {
        axis,
        cell: mark / CELL_MARK % 2 == 1,
        start,
        end,
    }
}

// The sheet's line of cell i of the table, 0 past the last. Any words give one.
#[tactic(auto, unfolding(crate::specs::Placements::cell_line))]
pub fn cell_line(words: &[u64], index: u32) -> u32
    ensures { result ≡ cell_line words.now index }
{
    let line = word_under(words, index, MOST_ITEMS, CELL_LINES + index as usize);
    (line % 0x1_0000_0000) as u32
}
