// The tables that a sheet is read into, and what is lent of them.
ghost use Rattle.std.specs.Prelude.{◌≤◌};

use crate::input::number_of;
use coordinates::{Axis, Fault};
use panel_names::entering::enter_name;
use panel_tables::region::{PANEL_BYTES, PANEL_WORDS, marks};
use panel_tables::{Grid, LentPanel, Panel, Room};
use sheet_rules::{Display, SheetFault};

// The most bytes of a store that are lent.
pub const STORE: usize = 32800;

// How many bytes of both stores are lent.
#[derive(Clone, Copy, Debug, PartialEq, Eq)]
pub struct StoreLengths {
    pub columns: u32,
    pub rows: u32,
}

impl StoreLengths {
    // Those that two fields write.
    pub fn written(columns: &[u8], rows: &[u8]) -> StoreLengths {
        StoreLengths {
            columns: number_of(columns),
            rows: number_of(rows),
        }
    }
}

// A line and a name that are entered in an axis.
#[derive(Clone, Copy)]
pub struct Entry<'a> {
    pub axis: Axis,
    pub line: u32,
    pub name: &'a [u8],
}

// The tables of a panel, and the stores of its names.
#[derive(Drop)]
pub struct Tables {
    pub words: [u64; PANEL_WORDS],
    pub bytes: [u8; PANEL_BYTES],
    pub columnstore: [u8; STORE],
    pub rowstore: [u8; STORE],
}

// A panel that answers, and what is lent with it; only a trial asks for the room, which a display does not have.
#[derive(Clone, Copy)]
pub struct Shown<'a> {
    pub grid: Grid,
    pub room: Room,
    pub lent: LentPanel<'a>,
}

// How many of the bytes that there are a number lends.
fn at_most(count: u32, bytes: usize) -> usize
    ensures { result ≤ bytes }
{
    bytes.min(count as usize)
}

// How many bytes of both stores are lent: all where no lengths are given.
pub fn lent(lengths: Option<StoreLengths>) -> (usize, usize)
    ensures { (result.0 ≤ 32800) × (result.1 ≤ 32800) }
{
    match lengths {
        Some(given) => (at_most(given.columns, STORE), at_most(given.rows, STORE)),
        None => (STORE, STORE),
    }
}

impl Tables {
    // Tables of zeros.
    pub fn new() -> Tables {
        Tables {
            words: [0; PANEL_WORDS],
            bytes: [0; PANEL_BYTES],
            columnstore: [0; STORE],
            rowstore: [0; STORE],
        }
    }

    // Calls with the tables, and with so many bytes of both stores as are lent.
    fn lend<T, F>(&mut self, lengths: Option<StoreLengths>, call: F) -> T
    where
        F: FnOnce(&mut [u64; PANEL_WORDS], &mut [u8; PANEL_BYTES], &mut [u8], &mut [u8]) -> T,
        requires { F.IsAlwaysCallable call }
    {
        let (columns, rows) = lent(lengths);
        let columnstore = &mut self.columnstore[..];
        let rowstore = &mut self.rowstore[..];
        call(
            &mut self.words,
            &mut self.bytes,
            &mut columnstore[..columns],
            &mut rowstore[..rows],
        )
    }

    // Reads a sheet.
    pub fn read(
        &mut self,
        sheet: &[u8],
        lengths: Option<StoreLengths>,
    ) -> Result<Panel, SheetFault> {
        self.lend(lengths, |words, bytes, columnstore, rowstore| {
            sheet::read_sheet(sheet, words, bytes, columnstore, rowstore)
        })
    }

    // Reads a sheet for display.
    pub fn display(
        &mut self,
        sheet: &[u8],
        lengths: Option<StoreLengths>,
    ) -> Result<Display, SheetFault> {
        self.lend(lengths, |words, bytes, columnstore, rowstore| {
            sheet::display_sheet(sheet, words, bytes, columnstore, rowstore)
        })
    }

    // Enters a line and a name in an axis of a panel.
    pub fn enter(
        &mut self,
        panel: Panel,
        lengths: Option<StoreLengths>,
        entry: Entry,
    ) -> Result<Panel, Fault> {
        self.lend(lengths, |words, _, columnstore, rowstore| {
            enter_name(
                panel,
                words,
                columnstore,
                rowstore,
                entry.axis,
                entry.line,
                entry.name,
            )
        })
    }

    // A panel with these tables.
    pub fn shown(&self, panel: Panel) -> Shown<'_> {
        let lent = LentPanel {
            words: &self.words,
            bytes: &self.bytes,
            columnstore: &self.columnstore,
            rowstore: &self.rowstore,
        };
        Shown {
            grid: panel.grid,
            room: panel.room,
            lent,
        }
    }
}

impl<'a> Shown<'a> {
    // The same with so many bytes of both stores.
    pub fn with_stores(self, lengths: StoreLengths) -> Shown<'a> {
        let columns = at_most(lengths.columns, self.lent.columnstore.len());
        let rows = at_most(lengths.rows, self.lent.rowstore.len());
        let lent = LentPanel {
            columnstore: &self.lent.columnstore[..columns],
            rowstore: &self.lent.rowstore[..rows],
            ..self.lent
        };
        Shown { lent, ..self }
    }

    // So many of the item bytes of an axis.
    pub fn items(self, axis: Axis, count: u32) -> &'a [u8] {
        let items = marks(self.lent.bytes, axis);
        &items[..at_most(count, items.len())]
    }
}
