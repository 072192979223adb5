// Placements by argument, for programs in C and Rust.
ghost use Rattle.std.specs.Prelude.{◌≡◌};
ghost use Rattle.panel_rules.specs.Calls.{name_tables_in, area_table_in};
ghost use Rattle.given_placements.specs.Given.{answered_given, given_written};
ghost use Rattle.palgwern.specs.Given.{GivenNumbers, given_answer, given_numbers};

use coordinates::limit::PLACEMENT_RUN;
use given_placements::{GivenFault, GivenPlacement, resolve_given};
use panel_tables::region::{PANEL_BYTES, PANEL_WORDS};
use panel_tables::{Grid, LentPanel};

// How many placements were resolved, or a refusal with the placement that has it, from 0, and 0.
#[repr(C)]
#[derive(Clone, Copy, Debug, PartialEq, Eq, Default)]
pub struct GivenAnswer {
    pub number: u32,
    pub index: u32,
    pub count: u32,
}

impl From<Result<u32, GivenFault>> for GivenAnswer {
    ghost from_gives = { λ resolved answer. answer ≡ given_answer (answered_given resolved) };

    // The answer as numbers, for programs in C.
    fn from(resolved: Result<u32, GivenFault>) -> GivenAnswer {
        match resolved {
            Ok(count) => GivenAnswer {
                number: 0,
                index: 0,
                count,
            },
            Err(told) => GivenAnswer {
                number: u32::from(told.fault),
                index: told.index,
                count: 0,
            },
        }
    }
}

// Placements that no sheet lists with their names resolved: eight numbers for each, those of PlacementNumbers. Their names' bytes stand one after
// the other, start before end.
#[unsafe(no_mangle)]
pub extern "C" fn palgwern_resolve_given(
    grid: Grid,
    words: &[u64; PANEL_WORDS],
    bytes: &[u8; PANEL_BYTES],
    columnstore: &[u8],
    rowstore: &[u8],
    given: &[GivenPlacement],
    names: &[u8],
    numbers: &mut [i32; PLACEMENT_RUN],
) -> GivenAnswer
    ensures { record { answer = result; numbers = numbers.new } ≡ given_numbers (given_written grid (name_tables_in words.now columnstore.now rowstore.now) (area_table_in words.now bytes.now) given.now names.now numbers.old) }
{
    let lent = LentPanel {
        words,
        bytes,
        columnstore,
        rowstore,
    };
    GivenAnswer::from(resolve_given(grid, lent, given, names, numbers))
}
