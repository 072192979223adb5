// All line names of an axis, written as numbers in one run.

#![tactic(auto)]

ghost use Rattle.std.specs.Prelude.{◌≡◌};
ghost use Rattle.panel_tables.specs.Axes.{grid_in};
ghost use Rattle.panel_rules.specs.Calls.{NameTables, shorter_store, store_in, words_in};
ghost use Rattle.panel_names.specs.Lent.{lent_tables};
ghost use Rattle.coordinates.specs.Refusals.{refused_by};
ghost use Rattle.library_numbers.specs.Answers.{answered_count_numbers};
ghost use Rattle.library_numbers.specs.Records.{WrittenRun};
ghost use Rattle.library_names.specs.Lists.{lists_refusal, written_lists};

use coordinates::line::check_explicit;
use coordinates::{Axis, Fault};
use name_entries::MOST_ENTRIES;
use panel_names::LentNames;
use panel_tables::Grid;
use panel_tables::axis::grid_in;

// The words of a run of line names: one for each entry that an axis can have.
pub const LINE_NAME_RUN: usize = MOST_ENTRIES;

// Whether the lists can be given.
#[tactic(auto, unfolding(crate::specs::Lists::lists_refusal))]
fn check_lists(explicit: u32, lent: LentNames) -> Result<(), Fault>
    ensures { refused_by result ≡ lists_refusal explicit (shorter_store (lent_tables lent.entry)) }
{
    check_explicit(explicit)?;
    lent.check_stores()
}

// Writes the lists of an axis of a panel. 4: an explicit count above 10,000; 10: a store below 32,768 bytes.
pub fn write_lists(
    grid: Grid,
    lent: LentNames,
    axis: Axis,
    out: &mut [u64; LINE_NAME_RUN],
) -> Result<u64, Fault>
    ensures { record { answer = answered_count_numbers result; words = out.new } ≡ written_lists (grid_in grid axis) (words_in (lent_tables lent.entry) axis) (store_in (lent_tables lent.entry) axis) (shorter_store (lent_tables lent.entry)) out.old }
{
    let explicit = grid_in(grid, axis).size.explicit;
    check_lists(explicit, lent)?;
    name_lists::detailed_line_names(lent.names(grid, axis), explicit, out)
}
