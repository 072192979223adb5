// The names of a panel: a line and a name entered in an axis, the line names, and what the calls on a panel read of its stores.

#![tactic(auto)]

pub mod entering;
pub mod naming;
pub mod store;

ghost use Rattle.std.specs.Prelude.{◌≡◌, cond};
ghost use Rattle.coordinates.specs.Refusals.{refused_by, short};
ghost use Rattle.panel_rules.specs.Calls.{entry_words_in, short_names, shorter_store, store_in, words_in};
ghost use Rattle.panel_tables.specs.Axes.{grid_in};
ghost use Rattle.panel_names.specs.Lent.{lent_tables};

use coordinates::limit::STORE_BYTES;
use coordinates::{Axis, Fault};
use name_entries::Names;
use panel_tables::axis::grid_in;
use panel_tables::region::{PANEL_WORDS, axis_words};
use panel_tables::{Grid, LentPanel};
use store::entries_of;

// What is lent of a panel to read its line names: its words, and the stores of the columns' and of the rows' names, of which a name is a part.
#[derive(Clone, Copy)]
pub struct LentNames<'w, 'a> {
    pub words: &'w [u64; PANEL_WORDS],
    pub columnstore: &'a [u8],
    pub rowstore: &'a [u8],
}

impl<'a> LentNames<'_, 'a> {
    // The store of an axis's names.
    pub fn store(self, axis: Axis) -> &'a [u8]
        ensures { result.now ≡ store_in (lent_tables self.entry) axis }
    {
        axis.of(self.columnstore, self.rowstore)
    }

    // The bytes of the shorter store.
    pub fn shorter_store(self) -> usize
        ensures { result ≡ shorter_store (lent_tables self.entry) }
    {
        self.columnstore.len().min(self.rowstore.len())
    }

    // Whether the stores are long enough.
    pub fn check_stores(self) -> Result<(), Fault>
        ensures { refused_by result ≡ cond (short_names (lent_tables self.entry)) short 0 }
    {
        if self.shorter_store() < STORE_BYTES {
            return Err(Fault::Short);
        }
        Ok(())
    }
}

impl<'a> LentNames<'a, 'a> {
    // The names of an axis.
    pub fn names(self, grid: Grid, axis: Axis) -> Names<'a>
        ensures entries { result.entries.now ≡ entry_words_in (grid_in grid axis) (words_in (lent_tables self.entry) axis) }
        ensures store { result.store.now ≡ store_in (lent_tables self.entry) axis }
    {
        Names {
            entries: entries_of(grid_in(grid, axis), axis_words(self.words, axis)),
            store: self.store(axis),
        }
    }
}

impl<'a> From<LentPanel<'a>> for LentNames<'a, 'a> {
    ghost from_gives = { λ lent names. names ≡ record { words = lent.words; columnstore = lent.columnstore; rowstore = lent.rowstore } };

    // What is lent of a panel that its names are read from.
    fn from(lent: LentPanel<'a>) -> LentNames<'a, 'a> {
        LentNames {
            words: lent.words,
            columnstore: lent.columnstore,
            rowstore: lent.rowstore,
        }
    }
}
