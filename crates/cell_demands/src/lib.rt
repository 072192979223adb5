// The cells that are placed are those of the `cell` lines of a sheet (document 02, Req 10): laws alone, each the contract of a function
// that does nothing.

#![tactic(auto)]

ghost use Rattle.cell_demands.specs.Lines.{CellsAreLines, CellsPlaced};
ghost use Rattle.cell_demands.specs.Ends.{CursorEnd};
ghost use Rattle.cell_demands.specs.Differ.{CellsDiffer};

// Of what a run holds after an accepted sheet, the cells that are placed are those of its `cell` lines, each with its number and settled fields.
pub fn cells_are_lines()
    ensures { CellsAreLines }
{}

// Each answer of a placing on it is CSS's for its `cell` lines.
pub fn cells_placed()
    ensures { CellsPlaced }
{}

// A sparse cell is found at the same place from the start and from the end of the cell placed before it.
pub fn cursor_end()
    ensures { CursorEnd }
{}

// Two runs that differ in their rows alone, and whose cell lands in different rows: where a cell lands is no column answer.
pub fn cells_differ()
    ensures { CellsDiffer }
{}
