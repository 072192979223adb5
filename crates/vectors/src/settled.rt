// The settled ends of a cell on an axis, beside the expected text: `settled`, then kind and number of its start and of its end, and their
// marks.
use crate::expected::Expected;
use crate::marks::seen_held;
use crate::tables::Shown;
use coordinates::Axis;
use name_resolver::NonNamedGridPlacement;
use panel_resolving::placing::resolve_placement;
use panel_rules::PlacedLine;
use panel_tables::placement::placement_at;
use panel_tables::region::placement_words;

// The columns or the rows of a cell, which is counted from 0.
#[derive(Clone, Copy, Debug, PartialEq, Eq)]
pub struct CellHalf {
    pub axis: Axis,
    pub cell: u32,
}

impl CellHalf {
    // Its place among the halves of all cells: each has its columns and then its rows.
    fn place(self) -> u64 {
        match self.axis {
            Axis::Column => 2 * u64::from(self.cell),
            Axis::Row => 2 * u64::from(self.cell) + 1,
        }
    }

    // Its index among the placements of a panel, past them where there is none.
    fn index(self, shown: Shown) -> u32 {
        let words = placement_words(shown.lent.words);
        let mut before = self.place();
        for index in 0..shown.grid.placements {
            let is_half = placement_at(words, index).cell;
            if is_half && before == 0 {
                return index;
            }
            before = before.saturating_sub(is_half.into());
        }
        shown.grid.placements
    }
}

// One end: its kind and its number.
fn seen_end<'a>(expected: Expected<'a>, end: NonNamedGridPlacement) -> Expected<'a> {
    let kind = match end {
        NonNamedGridPlacement::Auto => expected.part(b"\tauto\t"),
        NonNamedGridPlacement::Line(_) => expected.part(b"\tline\t"),
        NonNamedGridPlacement::Span(_) => expected.part(b"\tspan\t"),
    };
    kind.number(end.number())
}

// A half that is settled.
fn seen_ends<'a>(expected: Expected<'a>, answer: PlacedLine) -> Expected<'a> {
    let line = answer.placed.line;
    let start = seen_end(expected.part(b"settled"), line.start);
    seen_held(seen_end(start, line.end), answer.placed.held)
}

// The settled ends of a cell on an axis.
pub fn seen_settled<'a>(expected: Expected<'a>, half: CellHalf, shown: Shown) -> Expected<'a> {
    match resolve_placement(shown.grid, shown.lent, half.index(shown)) {
        Ok(answer) => seen_ends(expected, answer),
        Err(fault) => expected.refused(fault, 0),
    }
}
