// The nearest line to a cursor, beside the expected text: `nearest`, then a grid line.
use crate::expected::Expected;
use crate::tables::Shown;
use coordinates::Axis;
use panel_positions::nearest_line;

// A cursor on an axis, by the bits of its position, and how many item bytes are lent.
#[derive(Clone, Copy, Debug, PartialEq, Eq)]
pub struct Cursor {
    pub axis: Axis,
    pub position: u32,
    pub items: u32,
}

// The nearest line.
pub fn seen_nearest<'a>(expected: Expected<'a>, cursor: Cursor, shown: Shown) -> Expected<'a> {
    let items = shown.items(cursor.axis, cursor.items);
    let found = nearest_line(
        shown.grid,
        shown.lent.words,
        cursor.axis,
        items,
        cursor.position,
    );
    match found {
        Ok(line) => expected.part(b"nearest\t").number(line).part(b"\n"),
        Err(fault) => expected.refused(fault, 0),
    }
}
