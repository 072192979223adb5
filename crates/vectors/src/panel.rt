// The whole answer of a panel beside the expected text, its cells placed sparsely.
use crate::answers::seen_answer;
use crate::expected::Expected;
use crate::marks::seen_marks;
use crate::names::seen_names;
use crate::tables::Shown;
use cell_placing::{MOST_PLACED, Packing};
use panel_placing::place_cells;
use sheet_rules::Overlap;

// The answers of a panel, and the areas of a display that share a cell after them; where a cell has no place, that refusal alone.
pub fn seen_panel<'a>(
    expected: Expected<'a>,
    cut: bool,
    shown: Shown,
    overlap: Option<Overlap>,
) -> Expected<'a> {
    let mut lands = [0u64; MOST_PLACED];
    match place_cells(shown.grid, shown.lent, Packing::Sparse, &mut lands) {
        Ok(_) => {
            let last = seen_answer(expected, cut, shown, &lands);
            seen_marks(seen_names(last, cut, shown), shown).overlap(overlap)
        }
        Err(told) => expected.refused(told.fault, told.line),
    }
}
