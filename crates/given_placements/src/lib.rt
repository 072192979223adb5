// Placements that no sheet lists: layout code hands them by argument, and they are resolved as a panel's own are.

#![tactic(auto)]

mod end;
mod put;
mod run;

ghost use Rattle.std.specs.Prelude.{◌≡◌};
ghost use Rattle.coordinates.specs.Refusals.{refused_by};
ghost use Rattle.panel_resolving.specs.Lent.{lent_areas, lent_names};
ghost use Rattle.given_placements.specs.Given.{GivenWritten, answered_given, call_fault, given_written};

use coordinates::Fault;
use coordinates::limit::{MOST_ITEMS, PLACEMENT_RUN};
use panel_tables::{Grid, LentPanel};
use put::has_names;
use run::write_given;

// A placement by argument: its axis, and of each end the kind, the number and how many bytes of the names are its own. Kinds 0 to 4 are
// `auto line named span nspan`; the number and the name of an end that uses none are not read.
#[repr(C)]
#[derive(Clone, Copy, Debug, PartialEq, Eq, Default)]
pub struct GivenPlacement {
    pub axis: u32,
    pub startkind: u32,
    pub startnumber: i32,
    pub startname: u32,
    pub endkind: u32,
    pub endnumber: i32,
    pub endname: u32,
}

// A refusal, and the placement that has it, from 0; 0 where the call as a whole is refused.
#[derive(Clone, Copy, Debug, PartialEq, Eq)]
pub struct GivenFault {
    pub fault: Fault,
    pub index: u32,
}

// A refusal of the call as a whole.
pub(crate) fn whole(fault: Fault) -> GivenFault
    ensures { result ≡ record { fault = fault; index = 0 } }
{
    GivenFault { fault, index: 0 }
}

// Whether the call as a whole is refused before its placements are read. 8: more than 256; 10: fewer bytes of names than they say.
#[tactic(auto, unfolding(crate::specs::Given::call_fault))]
fn check_call(given: &[GivenPlacement], names: &[u8]) -> Result<(), Fault>
    ensures { refused_by result ≡ call_fault names.now given.now }
{
    if MOST_ITEMS < given.len() {
        return Err(Fault::Crowded);
    }
    if !has_names(given, names) {
        return Err(Fault::Short);
    }
    Ok(())
}

// Resolves placements by argument: eight numbers for each, those of a run of the panel's own placements. Refuses more than 256 by 8 and missing
// bytes of names by 10, then the first placement with a used name that is none by 2, or else with an axis, a kind or a used number outside its
// range by 4, then a store below 32,768 bytes by 10. On a refusal nothing is written.
#[tactic(auto, unfolding(crate::specs::Given::given_written))]
pub fn resolve_given(
    grid: Grid,
    lent: LentPanel,
    given: &[GivenPlacement],
    names: &[u8],
    numbers: &mut [i32; PLACEMENT_RUN],
) -> Result<u32, GivenFault>
    ensures { record { answer = answered_given result; numbers = numbers.new } ≡ given_written grid (lent_names lent.entry) (lent_areas lent.entry) given.now names.now numbers.old }
{
    match check_call(given, names) {
        Err(fault) => Err(whole(fault)),
        Ok(()) => {
            if given.is_empty() {
                return Ok(0);
            }
            write_given(grid, lent, given, names, numbers)
        }
    }
}
