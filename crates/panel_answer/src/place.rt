// The lines of placements and of cells.
ghost use Rattle.std.specs.Prelude.{◌≡◌};
ghost use Rattle.panel_rules.specs.Placing.{resolve_placement};
ghost use Rattle.panel_resolving.specs.Lent.{lent_names, lent_areas, lent_placements};
ghost use Rattle.free_cells.specs.Words.{rectangle_in};
ghost use Rattle.panel_text.specs.Lines.{cell_line};
ghost use Rattle.panel_text.specs.Written.{WritesLine};
ghost use Rattle.panel_answer.specs.Answer.{placed_line};
ghost use Rattle.panel_answer.specs.Listed.{answered_next};
ghost use Rattle.panel_answer.specs.Walk.{place_from, cell_from};

use crate::AnswerLine;
use coordinates::Axis;
use coordinates::part::word_at;
use free_cells::Rectangle;
use name_resolver::{NonNamedGridPlacement, ResolvedLine};
use panel_resolving::placing::resolve_placement;
use panel_tables::{Grid, LentPanel};

// What is printed where no placement is.
const ZERO_LINE: ResolvedLine = ResolvedLine {
    start: NonNamedGridPlacement::Auto,
    end: NonNamedGridPlacement::Auto,
};

// The line of a placement with its names resolved; a cell's half has none.
pub(crate) fn put_place(out: &mut [u8], grid: Grid, lent: LentPanel, index: u32) -> usize
    ensures { WritesLine out.old (placed_line (resolve_placement grid (lent_names lent.entry) (lent_areas lent.entry) (lent_placements lent.entry) index)) out.new result }
{
    match resolve_placement(grid, lent, index) {
        Ok(answer) if answer.cell => 0,
        Ok(answer) => panel_text::place_line(out, answer.axis, answer.placed.line),
        Err(_) => panel_text::place_line(out, Axis::Column, ZERO_LINE),
    }
}

// The line of a cell, from the words of where the cells land.
pub(crate) fn put_cell(out: &mut [u8], lands: &[u64], index: u32) -> usize
    ensures { WritesLine out.old (cell_line (rectangle_in lands.now index)) out.new result }
{
    let land = Rectangle::from(word_at(lands, index as usize));
    panel_text::cell_line(out, land)
}

// Cell `index`, where there is one.
pub(crate) fn cell_from(grid: Grid, index: u64) -> Option<AnswerLine>
    ensures { answered_next result ≡ cell_from grid index }
{
    if index < grid.cells as u64 {
        return Some(AnswerLine::Cell(index as u32));
    }
    None
}

// Placement `index`, or the cells.
pub(crate) fn place_from(grid: Grid, index: u64) -> Option<AnswerLine>
    ensures { answered_next result ≡ place_from grid index }
{
    if index < grid.placements as u64 {
        return Some(AnswerLine::Place(index as u32));
    }
    cell_from(grid, 0)
}
