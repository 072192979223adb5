// The run of placements by argument, beside what is lent of a panel.
ghost use Rattle.std.specs.Prelude.{◌≡◌, ◌≤◌, length};
ghost use Rattle.std.proofs.lemmas.List.Edits.{sets};
ghost use Rattle.library_numbers.specs.Answers.{answered_count_numbers};
ghost use Rattle.panel_resolving.specs.Lent.{lent_areas, lent_names};
ghost use Rattle.panel_resolving.specs.Placements.{WrittenNumbers, placements_written};
ghost use Rattle.given_placements.specs.Given.{GivenWritten, answered_given, given_beside, given_grid, put_all};

use crate::put::put_all;
use crate::{GivenFault, GivenPlacement, whole};
use axis_tables::write::copy_what_fits;
use coordinates::Fault;
use coordinates::limit::PLACEMENT_RUN;
use panel_resolving::run::write_placements;
use panel_tables::placement::{PLACEMENT_BYTES, PLACEMENT_WORDS};
use panel_tables::region::{PANEL_BYTES, PANEL_WORDS, PLACEMENT_NAMES_START, PLACEMENTS};
use panel_tables::{Grid, LentPanel};

// A grid with so many placements in the place of its own.
fn given_grid(grid: Grid, placements: u32) -> Grid
    ensures { result ≡ given_grid grid placements }
{
    let mut after = grid;
    after.placements = placements;
    after.cells = 0;
    after
}

// The placements of tables of their own put in the place of a panel's.
fn put_tables(
    words: &mut [u64; PANEL_WORDS],
    bytes: &mut [u8; PANEL_BYTES],
    placed: &[u64; PLACEMENT_WORDS],
    named: &[u8; PLACEMENT_BYTES],
)
    ensures written { (words.new ≡ sets words.old 25088 placed.now) × (bytes.new ≡ sets bytes.old 62048 named.now) }
    ensures lengths { (length words.old ≡ 26368) × (length bytes.old ≡ 94816) × (length placed.now ≡ 1280) × (length named.now ≡ 32768) }
{
    copy_what_fits(words, PLACEMENTS, placed);
    copy_what_fits(bytes, PLACEMENT_NAMES_START, named);
}

// A run of placements in tables of their own, beside what is lent of a panel: it is resolved on a copy of that.
fn write_beside(
    grid: Grid,
    lent: LentPanel,
    placed: &[u64; PLACEMENT_WORDS],
    named: &[u8; PLACEMENT_BYTES],
    numbers: &mut [i32; PLACEMENT_RUN],
) -> Result<u64, Fault>
    ensures { record { answer = answered_count_numbers result; numbers = numbers.new } ≡ placements_written grid (lent_names lent.entry) (lent_areas lent.entry) (record { words = placed.now; bytes = named.now }) 0 numbers.old }
{
    let mut words = *lent.words;
    let mut bytes = *lent.bytes;
    put_tables(&mut words, &mut bytes, placed, named);
    let copy = LentPanel {
        words: &words,
        bytes: &bytes,
        columnstore: lent.columnstore,
        rowstore: lent.rowstore,
    };
    write_placements(grid, copy, 0, numbers)
}

// Writes the placements, or the refusal of the first that has one, else that of their run.
pub(crate) fn write_given(
    grid: Grid,
    lent: LentPanel,
    given: &[GivenPlacement],
    names: &[u8],
    numbers: &mut [i32; PLACEMENT_RUN],
) -> Result<u32, GivenFault>
    requires { length given.now ≤ 256 }
    ensures { record { answer = answered_given result; numbers = numbers.new } ≡ given_beside grid (lent_names lent.entry) (lent_areas lent.entry) (put_all names.now given.now) numbers.old }
{
    let mut words = [0u64; PLACEMENT_WORDS];
    let mut bytes = [0u8; PLACEMENT_BYTES];
    let placements = put_all(given, names, &mut words, &mut bytes)?;
    let own = given_grid(grid, placements);
    match write_beside(own, lent, &words, &bytes, numbers) {
        Ok(count) => Ok(count as u32),
        Err(fault) => Err(whole(fault)),
    }
}
