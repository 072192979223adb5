// Where a cell lands in its turn, beside those placed before.
ghost use Rattle.std.specs.Prelude.{◌≡◌, ◌≤◌, ◌<◌, length, Some};
ghost use Rattle.cell_sides.specs.declared.Side.TheVariants.{Free, Fixed};
ghost use Rattle.free_cells.specs.Free.{AtOrAfter};
ghost use Rattle.cell_placing.specs.Css.{Fits, start_of};
ghost use Rattle.cell_placing.specs.Steps.{is_on, last_on, last_across, item_along, start_along, FirstLand, Here, CursorColumn, CursorPlace};
ghost use Rattle.cell_placing.specs.Turns.{Lands, item_at};

use crate::cursor::start_row;
use crate::{Item, Packing, Turn};
use cell_sides::Side;
use coordinates::{Axis, LinePair};
use free_cells::search::{LAST_ROW_LINE, Placed, along};
use free_cells::{Place, Rectangle, Size};

// Whether two lines, a track or more apart, are on an axis.
fn is_on(last: u32, lines: LinePair) -> bool
    ensures { result ≡ is_on last lines }
{
    ((1 <= lines.start) & (lines.start < lines.end)) & (lines.end <= last)
}

// The last line of an axis: the columns' is given.
fn last_on(axis: Axis, last: u16) -> u32
    ensures { result ≡ last_on axis last }
{
    axis.of(u32::from(last), LAST_ROW_LINE)
}

// The last line of the other axis.
fn last_across(axis: Axis, last: u16) -> u32
    ensures { result ≡ last_across axis last }
{
    axis.of(LAST_ROW_LINE, u32::from(last))
}

// The rectangle of a cell with lines in both axes.
fn fixed_land(last: u16, columns: LinePair, rows: LinePair) -> Option<Rectangle>
    ensures { FirstLand (Fits last (record { column = Some (Fixed columns); row = Some (Fixed rows) })) result }
{
    if !is_on(last as u32, columns) || !is_on(LAST_ROW_LINE, rows) {
        return None;
    }
    Some(Rectangle { columns, rows })
}

impl Turn<'_> {
    // The first free rectangle of so many tracks along an axis, at or after a line, between two lines across it.
    fn along_land(self, axis: Axis, from: u32, tracks: u32, across: LinePair) -> Option<Rectangle>
        ensures { FirstLand (Here self.entry.placed.now (length self.entry.placed.now) self.entry.cells.last (item_along axis tracks across) (λ q. from ≤ start_along axis q)) result }
    {
        if tracks == 0 || !is_on(last_across(axis, self.cells.last), across) {
            return None;
        }
        let placed = Placed {
            words: self.placed,
            last: last_on(axis, self.cells.last),
        };
        let line = placed.free_line(axis, from, tracks, across)?;
        let lines = LinePair {
            start: line,
            end: line + tracks,
        };
        Some(along(axis, lines, across))
    }

    // The first free rectangle of a size, in row order, at or after a place.
    fn free_area(self, size: Size, from: Place) -> Option<Rectangle>
        ensures { FirstLand (Here self.entry.placed.now (length self.entry.placed.now) self.entry.cells.last (record { column = Some (Free size.columns); row = Some (Free size.rows) }) (λ q. AtOrAfter from (start_of q))) result }
    {
        if size.columns == 0 || size.rows == 0 {
            return None;
        }
        let placed = Placed {
            words: self.placed,
            last: u32::from(self.cells.last),
        };
        let place = placed.free_place(size, from)?;
        let columns = LinePair {
            start: place.column,
            end: place.column + size.columns,
        };
        let rows = LinePair {
            start: place.row,
            end: place.row + size.rows,
        };
        Some(Rectangle { columns, rows })
    }

    // The column from which a cell that is fixed in its row is looked for.
    fn cursor_column(self, row: u32) -> u32
        ensures { CursorColumn self.entry.cells.packing self.entry.cells.items.now self.entry.placed.now self.entry.index row result }
    {
        match self.cells.packing {
            Packing::Sparse => self.row_cursor(row),
            Packing::Dense => 0,
        }
    }

    // The place from which one of the rest is looked for.
    fn cursor_place(self) -> Place
        ensures { CursorPlace self.entry.cells.packing self.entry.cells.items.now self.entry.placed.now self.entry.index result }
    {
        match self.cells.packing {
            Packing::Sparse => self.rest_cursor(),
            Packing::Dense => Place::default(),
        }
    }

    // A cell that is fixed in its row.
    fn row_land(self, tracks: u32, rows: LinePair) -> Option<Rectangle>
        requires { item_at self ≡ record { column = Some (Free tracks); row = Some (Fixed rows) } }
        ensures { Lands self.entry result }
    {
        let from = self.cursor_column(rows.start);
        self.along_land(Axis::Column, from, tracks, rows)
    }

    // A cell that is fixed in its column.
    fn column_land(self, columns: LinePair, tracks: u32) -> Option<Rectangle>
        requires { item_at self ≡ record { column = Some (Fixed columns); row = Some (Free tracks) } }
        ensures { Lands self.entry result }
    {
        let cursor = self.cursor_place();
        let from = start_row(cursor, columns.start);
        self.along_land(Axis::Row, from, tracks, columns)
    }

    // A cell that is free in both axes.
    fn free_land(self, size: Size) -> Option<Rectangle>
        requires { item_at self ≡ record { column = Some (Free size.columns); row = Some (Free size.rows) } }
        ensures { Lands self.entry result }
    {
        self.free_area(size, self.cursor_place())
    }

    // Where a cell lands in its turn; none where it is stuck.
    pub(crate) fn land_of(self) -> Option<Rectangle>
        ensures { Lands self.entry result }
    {
        let item = Item::from(self.cells.items[self.index as usize]);
        match (item.column?, item.row?) {
            (Side::Fixed(columns), Side::Fixed(rows)) => fixed_land(self.cells.last, columns, rows),
            (Side::Fixed(columns), Side::Free(tracks)) => self.column_land(columns, tracks),
            (Side::Free(tracks), Side::Fixed(rows)) => self.row_land(tracks, rows),
            (Side::Free(columns), Side::Free(rows)) => self.free_land(Size { columns, rows }),
        }
    }
}
