// A run of the placements of a panel, resolved and written as numbers.
ghost use Rattle.std.specs.Prelude.{◌≡◌, ◌*◌, ◌+◌, ◌≤◌, length};
ghost use Rattle.std.proofs.lemmas.List.Edits.{sets};
ghost use Rattle.panel_rules.specs.Calls.{NameTables, NamedWords, shorter_store};
ghost use Rattle.coordinates.specs.Refusals.{refused_by};
ghost use Rattle.library_numbers.specs.Answers.{answered_count_numbers};
ghost use Rattle.panel_resolving.specs.Chosen.{IsRunOf};
ghost use Rattle.panel_names.specs.Lent.{lent_tables};
ghost use Rattle.panel_resolving.specs.Lent.{lent_areas, lent_names, lent_placements};
ghost use Rattle.panel_resolving.specs.Placements.{WrittenNumbers, numbers_count, numbers_refusal, placements_written, run_numbers};

use crate::axis_run::Run;
use crate::placing::whole_around;
use crate::write::write_axis;
use coordinates::limit::PLACEMENT_RUN;
use coordinates::{Axis, Fault};
use panel_names::LentNames;
use panel_tables::placement::MOST_PLACEMENTS;
use panel_tables::{Grid, LentPanel};

// Whether a run can be given, of so many placements that are held.
#[tactic(auto, unfolding(crate::specs::Placements::numbers_refusal))]
fn check_numbers(held: u32, names: LentNames, first: u32) -> Result<(), Fault>
    ensures { refused_by result ≡ numbers_refusal held (shorter_store (lent_tables names.entry)) first }
{
    if held <= first {
        return Err(Fault::Count);
    }
    names.check_stores()
}

// How many placements are written from one that there is.
#[tactic(auto, unfolding(crate::specs::Placements::numbers_count))]
fn numbers_count(held: u32, first: u32) -> u32
    requires { first ≤ held }
    ensures { (result ≡ numbers_count held first) × (first + result ≤ 4294967295) × (8 * result ≤ 4096) }
{
    MOST_PLACEMENTS.min(held - first)
}

// The placements of an axis in a run, its name entries kept together.
fn run_of(axis: Axis, explicit: u32, areas: u32, first: u32, count: u32) -> Run
    requires { first + count ≤ 4294967295 }
    ensures { IsRunOf axis explicit areas first count result }
{
    Run {
        around: whole_around(axis, explicit, areas),
        first,
        count,
    }
}

// Writes so many placements from one on, those of the columns, then those of the rows.
fn write_numbers(grid: Grid, lent: LentPanel, first: u32, count: u32, numbers: &mut [i32])
    requires count_bound { (first + count ≤ grid.placements) × (first + count ≤ 4294967295) × (8 * count ≤ length numbers.old) }
    requires bound { 32768 ≤ shorter_store (lent_names lent) }
    ensures { numbers.new ≡ sets numbers.old 0 (run_numbers grid (lent_names lent.entry) (lent_areas lent.entry) (lent_placements lent.entry) first count) }
{
    let held = grid.areas;
    let ofcolumns = run_of(Axis::Column, grid.columns.size.explicit, held, first, count);
    let ofrows = run_of(Axis::Row, grid.rows.size.explicit, held, first, count);
    let names = LentNames::from(lent);
    let columnnames = names.names(grid, Axis::Column);
    let rownames = names.names(grid, Axis::Row);
    write_axis(ofcolumns, columnnames, lent.words, lent.bytes, numbers);
    write_axis(ofrows, rownames, lent.words, lent.bytes, numbers);
}

// Writes the placements of a panel from `first` on, as many as there are and fit. 4: no such placement; 10: a store below 32,768 bytes.
pub fn write_placements(
    grid: Grid,
    lent: LentPanel,
    first: u32,
    numbers: &mut [i32; PLACEMENT_RUN],
) -> Result<u64, Fault>
    ensures { record { answer = answered_count_numbers result; numbers = numbers.new } ≡ placements_written grid (lent_names lent.entry) (lent_areas lent.entry) (lent_placements lent.entry) first numbers.old }
{
    let names = LentNames::from(lent);
    check_numbers(grid.placements, names, first)?;
    let count = numbers_count(grid.placements, first);
    write_numbers(grid, lent, first, count, numbers);
    Ok(u64::from(count))
}
