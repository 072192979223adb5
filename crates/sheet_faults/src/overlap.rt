// The area that a line shares a cell with.
ghost use Rattle.std.specs.Prelude.{◌≡◌, cond, eqb};
ghost use Rattle.coordinates.specs.Refusals.{fault_number};
ghost use Rattle.panel_cells.specs.Steps.{area_number_of};
ghost use Rattle.sheet_forms.specs.Answers.{said_of};
ghost use Rattle.sheet_rules.specs.Lines.{edges_of};
ghost use Rattle.sheet_faults.specs.Lines.{noted_by};
ghost use Rattle.sheet_faults.specs.Parts.{shared_of};

use crate::fault::AreasBefore;
use coordinates::Fault;
use panel_cells::first_sharing;
use panel_tables::AreaEdges;
use sheet_forms::{AreaRecord, Record, first_fault};

// The edges that an `area` record says.
pub fn edges_of(area: AreaRecord) -> AreaEdges
    ensures { result ≡ edges_of area }
{
    AreaEdges {
        rowstart: area.rowstart,
        rowend: area.rowend,
        columnstart: area.columnstart,
        columnend: area.columnend,
    }
}

// The place, from 0, of the first area before a line that shares a cell with its record's, which is an area.
pub fn shared(areas: AreasBefore<'_>, said: Result<Record, Fault>) -> Option<u32>
    ensures { area_number_of result ≡ shared_of areas.entry.count areas.entry.words.now (said_of said) }
{
    match said {
        Ok(Record::Area(a)) => first_sharing(areas.count, areas.words, edges_of(a)),
        _ => None,
    }
}

// The fault of a line that shares a cell with an area.
fn overlap_fault(shared: Option<u32>) -> Option<Fault>
    ensures { fault_number result ≡ cond (eqb (area_number_of shared) 0) 0 12 }
{
    shared.map(|_| Fault::Overlap)
}

// The area that a line shares a cell with, where that is the first of its faults: `before` are those that it has before it is written,
// `written` is that of writing it.
#[tactic(auto, using(crate::proofs::Noted::other_fault))]
pub fn noted(before: Option<Fault>, shared: Option<u32>, written: Option<Fault>) -> Option<u32>
    ensures { area_number_of result ≡ noted_by (fault_number before) (area_number_of shared) (fault_number written) }
{
    match first_fault(before, first_fault(overlap_fault(shared), written)) {
        Some(Fault::Overlap) => shared,
        _ => None,
    }
}
