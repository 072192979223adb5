// Where the cells of a panel land, beside the expected text: `cells`, then for each its two column lines and two row lines.
use crate::expected::Expected;
use crate::tables::{Shown, StoreLengths};
use cell_placing::{MOST_PLACED, Packing};
use coordinates::LinePair;
use free_cells::Rectangle;
use panel_placing::place_cells;

// The packing that a field writes.
pub fn packing_of(field: &[u8]) -> Packing {
    match field {
        b"dense" => Packing::Dense,
        _ => Packing::Sparse,
    }
}

// Two lines, each after a tab.
fn seen_lines<'a>(expected: Expected<'a>, lines: LinePair) -> Expected<'a> {
    let start = expected.part(b"\t").number(lines.start);
    start.part(b"\t").number(lines.end)
}

// The lines of one cell.
pub fn seen_land<'a>(expected: Expected<'a>, land: Rectangle) -> Expected<'a> {
    seen_lines(seen_lines(expected, land.columns), land.rows)
}

// Where all cells land; where one has no place, that refusal.
pub fn seen_cells<'a>(
    expected: Expected<'a>,
    packing: Packing,
    lengths: StoreLengths,
    shown: Shown,
) -> Expected<'a> {
    let mut lands = [0u64; MOST_PLACED];
    let lent = shown.with_stores(lengths);
    let count = match place_cells(lent.grid, lent.lent, packing, &mut lands) {
        Ok(count) => count as usize,
        Err(told) => return expected.refused(told.fault, told.line),
    };
    let mut seen = expected.part(b"cells");
    for land in lands.iter().take(count) {
        seen = seen_land(seen, Rectangle::from(*land));
    }
    seen.part(b"\n")
}
