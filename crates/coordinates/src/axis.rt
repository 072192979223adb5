// The two axes of a panel: `c` and `r` in a sheet.
ghost use Rattle.std.specs.Prelude.{◌≡◌};
ghost use Rattle.coordinates.specs.Axes.{axis_number, axis_of, of_axis};

#[derive(Clone, Copy, Debug, PartialEq, Eq)]
pub enum Axis {
    Column,
    Row,
}

impl Axis {
    // Of a value for the columns and one for the rows, that of the axis.
    pub fn of<T: Copy>(self, columns: T, rows: T) -> T
        ensures { result ≡ of_axis self columns rows }
    {
        match self {
            Axis::Column => columns,
            Axis::Row => rows,
        }
    }
}

impl From<Axis> for u32 {
    ghost from_gives = { λ axis number. number ≡ axis_number axis };

    // The number of an axis: 0 the columns, 1 the rows.
    fn from(axis: Axis) -> u32 {
        axis as u32
    }
}

impl From<u32> for Axis {
    ghost from_gives = { λ number axis. axis ≡ axis_of number };

    // The axis of a number; any other than the columns' counts as the rows'.
    fn from(number: u32) -> Axis {
        match number {
            0 => Axis::Column,
            _ => Axis::Row,
        }
    }
}
