// A cell as a word: a side takes 32 bits, as two lines do; start 0 is a free side over `end` tracks, and start 65,535 one that is outside.
ghost use Rattle.std.specs.Prelude.{◌≡◌};
ghost use Rattle.cell_placing.specs.Items.{side_of, item_of, side_lines, item_word, group_of, group_number};

use crate::{Group, Item};
use cell_sides::Side;
use coordinates::LinePair;
use free_cells::Rectangle;
use free_cells::word::lines_of;

// The start that says "outside".
const OUTSIDE: u32 = 65535;

// A side from two lines. Any two give one, or that it is outside.
fn side_of(lines: LinePair) -> Option<Side>
    ensures { result ≡ side_of lines }
{
    match lines.start {
        0 => Some(Side::Free(lines.end)),
        OUTSIDE => None,
        _ => Some(Side::Fixed(lines)),
    }
}

// A cell from its word. Any word gives one.
impl From<u64> for Item {
    ghost from_gives = { λ word item. item ≡ item_of word };

    // Its column's lines stand in the lower 32 bits.
    #[tactic(auto, unfolding(crate::specs::Items::item_of))]
    fn from(word: u64) -> Item {
        Item {
            column: side_of(lines_of(word)),
            row: side_of(lines_of(word / 0x1_0000_0000)),
        }
    }
}

// The two lines that say a side.
fn side_lines(side: Option<Side>) -> LinePair
    ensures { result ≡ side_lines side }
{
    match side {
        None => LinePair {
            start: OUTSIDE,
            end: 0,
        },
        Some(Side::Free(tracks)) => LinePair {
            start: 0,
            end: tracks,
        },
        Some(Side::Fixed(lines)) => lines,
    }
}

// The word of a cell.
impl From<Item> for u64 {
    ghost from_gives = { λ item word. word ≡ item_word item };

    // That of a rectangle with its sides' lines.
    fn from(item: Item) -> u64 {
        u64::from(Rectangle {
            columns: side_lines(item.column),
            rows: side_lines(item.row),
        })
    }
}

// The group in which a cell is placed.
#[tactic(auto, unfolding(crate::specs::Items::group_of))]
pub fn group_of(word: u64) -> Group
    ensures { group_number result ≡ group_of (item_of word) }
{
    let item = Item::from(word);
    match (item.column, item.row) {
        (_, Some(Side::Free(_))) => Group::Rest,
        (Some(Side::Free(_)), _) => Group::FixedInRow,
        _ => Group::FixedInBoth,
    }
}
