// A rectangle as a word: its column lines, then its row lines, 16 bits each.
ghost use Rattle.std.specs.Prelude.{◌≡◌, ◌/◌, ◌%◌};
ghost use Rattle.free_cells.specs.Words.{lines_of, rectangle_of, lines_word, rectangle_word};

use crate::Rectangle;
use coordinates::LinePair;

// Two lines from the lower 32 bits of a word. Any word gives some.
#[tactic(auto, unfolding(crate::specs::Words::lines_of))]
pub fn lines_of(word: u64) -> LinePair
    ensures { result ≡ lines_of word }
{
    LinePair {
        start: (word % 0x1_0000) as u32,
        end: (word / 0x1_0000 % 0x1_0000) as u32,
    }
}

// A rectangle from its word. Any word gives one.
impl From<u64> for Rectangle {
    ghost from_gives = { λ word rectangle. rectangle ≡ rectangle_of word };

    // Its column lines stand in the lower 32 bits.
    #[tactic(auto, unfolding(crate::specs::Words::rectangle_of))]
    fn from(word: u64) -> Rectangle {
        let columns = lines_of(word);
        let rows = lines_of(word / 0x1_0000_0000);
        Rectangle { columns, rows }
    }
}

// Two lines in 32 bits.
#[tactic(auto, unfolding(crate::specs::Words::lines_word))]
pub fn lines_word(lines: LinePair) -> u64
    ensures { result ≡ lines_word lines }
{
    lines.start as u64 % 0x1_0000 + lines.end as u64 % 0x1_0000 * 0x1_0000
}

// The word of a rectangle.
impl From<Rectangle> for u64 {
    ghost from_gives = { λ rectangle word. word ≡ rectangle_word rectangle };

    // Its column lines take the lower 32 bits.
    fn from(rectangle: Rectangle) -> u64 {
        let low = lines_word(rectangle.columns);
        let high = lines_word(rectangle.rows);
        low + high * 0x1_0000_0000
    }
}
