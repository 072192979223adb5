// The cells of a panel, by their sides from their settled fields.
ghost use Rattle.std.specs.Prelude.{◌≡◌, ◌+◌, ◌≤◌, ◌<◌, length};
ghost use Rattle.coordinates.specs.declared.axis.Axis.TheVariants.{Column, Row};
ghost use Rattle.panel_hits.specs.Settled.{lent_of};
ghost use Rattle.panel_rules.specs.Calls.{shorter_store};
ghost use Rattle.placement_hits.specs.Steps.{ends_at, ends_by};
ghost use Rattle.panel_placing.specs.Cells.{is_half, is_cell, pairs};
ghost use Rattle.panel_placing.specs.Steps.{Collected, Gathered, ItemAt, LinesOf};

use cell_placing::{Item, MOST_PLACED};
use cell_sides::cell::CellLines;
use coordinates::limit::{PLACEMENT_NUMBERS, PLACEMENT_RUN};
use coordinates::{Axis, Line};
use free_cells::search::LAST_ROW_LINE;
use panel_resolving::run::write_placements;
use panel_tables::placement::{MOST_PLACEMENTS, placement_at};
use panel_tables::region::placement_words;
use panel_tables::{Grid, LentPanel};
use placement_hits::Ends;
use placement_hits::member::settled_end;

// The placements of a panel by their table, what they are settled to, eight numbers each, and the lines of both axes.
#[derive(Clone, Copy)]
pub(crate) struct Settled<'a> {
    pub words: &'a [u64],
    pub numbers: &'a [i32; PLACEMENT_RUN],
    pub columns: CellLines,
    pub rows: CellLines,
}

// Whether a placement of the table is the half of a cell on an axis.
fn is_half(words: &[u64], axis: Axis, index: u32) -> bool
    ensures { result ≡ is_half words.now axis index }
{
    let place = placement_at(words, index);
    place.cell && place.axis == axis
}

// Whether a placement of the table is a cell's columns, and the next one its rows.
#[tactic(auto, unfolding(crate::specs::Cells::is_cell))]
fn is_cell(words: &[u64], index: u32) -> bool
    requires { index < 4294967295 }
    ensures { result ≡ is_cell words.now index }
{
    is_half(words, Axis::Column, index) && is_half(words, Axis::Row, index + 1)
}

// How many placements have another behind them, of those that a panel holds.
fn pairs(placements: u32) -> u32
    ensures { result ≡ pairs placements }
{
    placements.min(MOST_PLACEMENTS).saturating_sub(1)
}

impl Settled<'_> {
    // Both ends of a placement.
    #[tactic(auto, unfolding(placement_hits::specs::Steps::ends_at))]
    fn ends(self, index: u32) -> Ends
        requires { index < 512 }
        ensures { ends_by result ≡ ends_at self.entry.numbers.now index }
    {
        let place = PLACEMENT_NUMBERS * index as usize;
        Line {
            start: settled_end(self.numbers[place + 2], self.numbers[place + 3]),
            end: settled_end(self.numbers[place + 4], self.numbers[place + 5]),
        }
    }

    // The cell whose columns are a placement, by its sides.
    fn item(self, index: u32) -> Item
        requires { index + 1 < 512 }
        ensures { ItemAt self.entry.numbers.now self.entry.columns self.entry.rows index result }
    {
        Item {
            column: self.columns.side(self.ends(index)),
            row: self.rows.side(self.ends(index + 1)),
        }
    }

    // Writes the cell whose columns are a placement after those written so far, where it is one and is counted; how many there are then.
    fn put_cell(self, most: u32, index: u32, count: u32, items: &mut [u64; MOST_PLACED]) -> u32
        requires { (index + 1 < 512) × (most ≤ 256) × Collected self most index items.old count }
        ensures { Collected self.entry most (index + 1) items.new result }
    {
        if count < most && is_cell(self.words, index) {
            items[count as usize] = u64::from(self.item(index));
            return count + 1;
        }
        count
    }

    // Writes so many cells at most, of so many placements, from the first place on; how many there are.
    fn gather(self, most: u32, pairs: u32, items: &mut [u64; MOST_PLACED]) -> u32
        requires { (pairs < 512) × (most ≤ 256) }
        ensures { Collected self.entry most pairs items.new result }
    {
        let mut count = 0;
        for index in 0..pairs {
            count = self.put_cell(most, index, count, items);
        }
        count
    }
}

// The lines of both axes: columns end at the last explicit one, rows where none is left.
fn lines_of(grid: Grid) -> (CellLines, CellLines)
    requires { (grid.columns.size.explicit ≤ 10000) × (grid.rows.size.explicit ≤ 10000) }
    ensures { LinesOf grid result.0 result.1 }
{
    let columns = grid.columns.size.explicit as u16;
    (
        CellLines {
            explicit: columns,
            last: columns + 1,
        },
        CellLines {
            explicit: grid.rows.size.explicit as u16,
            last: LAST_ROW_LINE as u16,
        },
    )
}

// The cells of a panel, as many as it counts, all placements settled in one run. A panel that counts none has no run.
pub(crate) fn gather_cells(grid: Grid, lent: LentPanel, items: &mut [u64; MOST_PLACED]) -> u32
    requires { (grid.columns.size.explicit ≤ 10000) × (grid.rows.size.explicit ≤ 10000) × (32768 ≤ shorter_store (lent_of lent).names) }
    ensures { Gathered grid (lent_of lent.entry) items.new result }
{
    if grid.cells == 0 {
        return 0;
    }
    let mut numbers: [i32; PLACEMENT_RUN] = [0; PLACEMENT_RUN];
    let _written = write_placements(grid, lent, 0, &mut numbers);
    let (columns, rows) = lines_of(grid);
    let settled = Settled {
        words: placement_words(lent.words),
        numbers: &numbers,
        columns,
        rows,
    };
    settled.gather(
        grid.cells.min(MOST_PLACED as u32),
        pairs(grid.placements),
        items,
    )
}
