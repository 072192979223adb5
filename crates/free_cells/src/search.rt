// The first place that is free.
ghost use Rattle.std.specs.Prelude.{◌≡◌, ◌+◌, ◌<◌, length};
ghost use Rattle.free_cells.specs.Free.{along, tracks_from, First, FreeLine, Earliest, FreePlace};
ghost use Rattle.free_cells.specs.Steps.{end_along, InRow, Below};

use crate::way::{in_way, next_end};
use crate::{Place, Rectangle, Size};
use coordinates::line::LAST_EXPLICIT_LINE;
use coordinates::{Axis, LinePair};

// Rows are lines 1 to this.
pub const LAST_ROW_LINE: u32 = LAST_EXPLICIT_LINE;

// The words of placed rectangles, and the last line of the axis that is searched; for a place, that of the columns.
#[derive(Clone, Copy)]
pub struct Placed<'a> {
    pub words: &'a [u64],
    pub last: u32,
}

// A rectangle by its lines along an axis and across it.
pub fn along(axis: Axis, lines: LinePair, across: LinePair) -> Rectangle
    ensures { result ≡ along axis lines across }
{
    match axis {
        Axis::Column => Rectangle {
            columns: lines,
            rows: across,
        },
        Axis::Row => Rectangle {
            columns: across,
            rows: lines,
        },
    }
}

// So many tracks from a line on.
fn tracks_from(line: u32, tracks: u32) -> LinePair
    requires { line + tracks < 4294967296 }
    ensures { result ≡ tracks_from line tracks }
{
    LinePair {
        start: line,
        end: line + tracks,
    }
}

// The end of a rectangle along an axis.
fn end_along(axis: Axis, rectangle: Rectangle) -> u32
    ensures { result ≡ end_along axis rectangle }
{
    axis.of(rectangle.columns, rectangle.rows).end
}

impl Placed<'_> {
    // The first line along an axis, at or after a line, from which so many tracks, between two lines across, are free.
    // What is in the way at a line is in the way up to its end.
    pub fn free_line(self, axis: Axis, from: u32, tracks: u32, across: LinePair) -> Option<u32>
        ensures { First (FreeLine self.entry.words.now (length self.entry.words.now) axis self.entry.last from tracks across) result }
    {
        if self.last < tracks {
            return None;
        }
        let most = self.last - tracks;
        let mut at = from.max(1);
        while at <= most {
            let lines = tracks_from(at, tracks);
            let Some(placed) = in_way(self.words, along(axis, lines, across)) else {
                return Some(at);
            };
            at = end_along(axis, Rectangle::from(self.words[placed]));
        }
        None
    }

    // The first column at or after a place, in its row, at which a rectangle is free and inside.
    fn column_in_row(self, size: Size, from: Place) -> Option<u32>
        ensures { First (InRow self.entry.words.now (length self.entry.words.now) self.entry.last size from) result }
    {
        let row = from.row;
        if row == 0 || LAST_ROW_LINE < row || LAST_ROW_LINE - row < size.rows {
            return None;
        }
        let across = tracks_from(row, size.rows);
        self.free_line(Axis::Column, from.column, size.columns, across)
    }

    // The first place in the rows past a row at which a rectangle is free and inside. A row in which there is none has none up to the
    // next end of a placed rectangle.
    fn free_below(self, size: Size, row: u32) -> Option<Place>
        ensures { Earliest (Below self.entry.words.now (length self.entry.words.now) self.entry.last size row) result }
    {
        if LAST_ROW_LINE <= row {
            return None;
        }
        let mut at = row + 1;
        while at <= LAST_ROW_LINE {
            let start = Place { row: at, column: 1 };
            if let Some(column) = self.column_in_row(size, start) {
                return Some(Place { column, ..start });
            }
            at = next_end(self.words, at)?;
        }
        None
    }

    // The first place in row order, at or after a place, at which a rectangle is free beside the placed ones, and inside the columns
    // and the rows.
    pub fn free_place(self, size: Size, from: Place) -> Option<Place>
        ensures { Earliest (FreePlace self.entry.words.now (length self.entry.words.now) self.entry.last size from) result }
    {
        match self.column_in_row(size, from) {
            Some(column) => Some(Place { column, ..from }),
            None => self.free_below(size, from.row),
        }
    }
}
