// The cursors of sparse packing: where the cells placed before start.
ghost use Rattle.std.specs.Prelude.{◌≡◌, ◌≤◌, ◌<◌};
ghost use Rattle.free_cells.specs.Words.{rectangle_of};
ghost use Rattle.cell_placing.specs.Css.{start_of};
ghost use Rattle.cell_placing.specs.Steps.{later_column, RowCursor, RestCursor, start_row};

use crate::words::group_of;
use crate::{Group, Turn};
use free_cells::{Place, Rectangle};

// The larger of a column and where a cell starts that is fixed in its row, where that is this row.
fn later_column(item: u64, land: u64, row: u32, column: u32) -> u32
    ensures { result ≡ later_column item land row column }
{
    let placed = Rectangle::from(land);
    if group_of(item) != Group::FixedInRow || placed.rows.start != row {
        return column;
    }
    placed.columns.start.max(column)
}

// The start of a rectangle.
fn start_of(land: u64) -> Place
    ensures { result ≡ start_of (rectangle_of land) }
{
    let placed = Rectangle::from(land);
    Place {
        row: placed.rows.start,
        column: placed.columns.start,
    }
}

// The first row for a cell with a fixed column: where that is before the cursor's column, the row past the cursor's.
pub(crate) fn start_row(cursor: Place, column: u32) -> u32
    requires { cursor.row < 65536 }
    ensures { result ≡ start_row cursor column }
{
    if column < cursor.column {
        return cursor.row + 1;
    }
    cursor.row
}

impl Turn<'_> {
    // The greatest column at which one of the cells before this one that are fixed in their row starts, of those that start in this row; 0 where
    // there is none.
    pub(crate) fn row_cursor(self, row: u32) -> u32
        ensures { RowCursor self.entry.cells.items.now self.entry.placed.now self.entry.index row result }
    {
        let before = self.index as usize;
        let mut column: u32 = 0;
        for (item, land) in self.cells.items[..before].iter().zip(self.placed) {
            column = later_column(*item, *land, row, column);
        }
        column
    }

    // Where the last of the rest, of the cells before this one, starts; zeros where there is none.
    pub(crate) fn rest_cursor(self) -> Place
        ensures { RestCursor self.entry.cells.items.now self.entry.placed.now self.entry.index result }
    {
        let before = &self.cells.items[..self.index as usize];
        match before
            .iter()
            .rposition(|item| group_of(*item) == Group::Rest)
        {
            Some(last) => start_of(self.placed[last]),
            None => Place::default(),
        }
    }
}
