// The name entries of an axis.
ghost use Rattle.std.specs.Prelude.{◌≡◌};
ghost use Rattle.axis_tables.specs.Runs.{part_of};

use axis_tables::AxisGrid;
use axis_tables::layout::{ENTRIES, part_from};

// The name entries.
pub fn entries_of(grid: AxisGrid, words: &[u64]) -> &[u64]
    ensures { result.now ≡ part_of words.now 8384 grid.entries }
{
    part_from(words, ENTRIES, grid.entries)
}
