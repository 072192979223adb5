// The lines that stand beside a template: `area`, `name`, `extra`, `item`, `place`, `cell`.
ghost use Rattle.std.specs.Prelude.{◌≡◌};
ghost use Rattle.coordinates.specs.Refusals.{refused_by};
ghost use Rattle.sheet_forms.specs.Answers.{axis_said, end_said, number_said, said_of};
ghost use Rattle.sheet_forms.specs.Records.{edges_of, made_area, area_line, made_name, name_line, made_extra, extra_line, made_item, item_line, made_place, place_line, made_cell, cell_line};
ghost use Rattle.sheet_lines.specs.Fields.{fields_of};

use crate::fields::{
    AREA_FIELDS, CELL_FIELDS, EXTRA_FIELDS, Fields, ITEM_FIELDS, NAME_FIELDS, PLACE_FIELDS,
};
use coordinates::line::{LAST_EXPLICIT_LINE, MOST_TRACKS};
use coordinates::{Axis, Fault, Line};
use sheet_fields::ends::{cell_end, placement_end};
use sheet_forms::field::{axis, count};
use sheet_forms::{AreaRecord, CellRecord, PlaceEnd, Record, both, check_name};

// The most implicit tracks on one side of the explicit ones.
const MOST_IMPLICIT: u32 = MOST_TRACKS as u32;

// The index of the last track of an axis with as many as it can have, explicit and on both sides of these.
const LAST_TRACK: u32 = 3 * MOST_TRACKS as u32 - 1;

// An area's edges, each start below its end.
fn edges(rowstart: u32, rowend: u32, columnstart: u32, columnend: u32) -> Result<Record, Fault>
    ensures { said_of result ≡ edges_of rowstart rowend columnstart columnend }
{
    if rowend <= rowstart || columnend <= columnstart {
        return Err(Fault::Area);
    }
    Ok(Record::Area(AreaRecord {
        rowstart,
        rowend,
        columnstart,
        columnend,
    }))
}

// An area of these parts.
#[tactic(auto, unfolding(sheet_forms::specs::Faults::first_of), using(sheet_forms::proofs::Parts::unless_fault))]
fn make_area(
    name: Result<(), Fault>,
    rowstart: Result<u32, Fault>,
    rowend: Result<u32, Fault>,
    columnstart: Result<u32, Fault>,
    columnend: Result<u32, Fault>,
) -> Result<Record, Fault>
    ensures { said_of result ≡ made_area (refused_by name) (number_said rowstart) (number_said rowend) (number_said columnstart) (number_said columnend) }
{
    let columns = both(columnstart, columnend);
    let (_, (rowstart, (rowend, (columnstart, columnend)))) = both(
        name,
        both(rowstart, both(rowend, columns)),
    )?;
    edges(rowstart, rowend, columnstart, columnend)
}

// `area`, name, row start, row end, column start, column end
#[tactic(auto, unfolding(sheet_forms::specs::Records::area_line))]
pub(crate) fn area_line(fields: &Fields<'_>) -> Result<Record, Fault>
    ensures { said_of result ≡ area_line (fields_of fields.now) }
{
    fields.check_count(AREA_FIELDS)?;
    make_area(
        check_name(fields.field(1)),
        count(fields.field(2), 1, LAST_EXPLICIT_LINE),
        count(fields.field(3), 1, LAST_EXPLICIT_LINE),
        count(fields.field(4), 1, LAST_EXPLICIT_LINE),
        count(fields.field(5), 1, LAST_EXPLICIT_LINE),
    )
}

// A name of these parts.
#[tactic(auto, unfolding(sheet_forms::specs::Faults::first_of), using(sheet_forms::proofs::Parts::unless_fault))]
fn make_name(axis: Result<Axis, Fault>, name: Result<(), Fault>) -> Result<Record, Fault>
    ensures { said_of result ≡ made_name (axis_said axis) (refused_by name) }
{
    let (axis, _) = both(axis, name)?;
    Ok(Record::Name(axis))
}

// `name`, axis, name
#[tactic(auto, unfolding(sheet_forms::specs::Records::name_line))]
pub(crate) fn name_line(fields: &Fields<'_>) -> Result<Record, Fault>
    ensures { said_of result ≡ name_line (fields_of fields.now) }
{
    fields.check_count(NAME_FIELDS)?;
    make_name(axis(fields.field(1)), check_name(fields.field(2)))
}

// Implicit tracks of these parts.
#[tactic(auto, unfolding(sheet_forms::specs::Faults::first_of), using(sheet_forms::proofs::Parts::unless_fault))]
fn make_extra(
    axis: Result<Axis, Fault>,
    negative: Result<u32, Fault>,
    positive: Result<u32, Fault>,
) -> Result<Record, Fault>
    ensures { said_of result ≡ made_extra (axis_said axis) (number_said negative) (number_said positive) }
{
    let (axis, (negative, positive)) = both(axis, both(negative, positive))?;
    Ok(Record::Extra(axis, negative, positive))
}

// `extra`, axis, negative and positive implicit counts
#[tactic(auto, unfolding(sheet_forms::specs::Records::extra_line))]
pub(crate) fn extra_line(fields: &Fields<'_>) -> Result<Record, Fault>
    ensures { said_of result ≡ extra_line (fields_of fields.now) }
{
    fields.check_count(EXTRA_FIELDS)?;
    make_extra(
        axis(fields.field(1)),
        count(fields.field(2), 0, MOST_IMPLICIT),
        count(fields.field(3), 0, MOST_IMPLICIT),
    )
}

// An item of these parts.
#[tactic(auto, unfolding(sheet_forms::specs::Faults::first_of), using(sheet_forms::proofs::Parts::unless_fault))]
fn make_item(axis: Result<Axis, Fault>, index: Result<u32, Fault>) -> Result<Record, Fault>
    ensures { said_of result ≡ made_item (axis_said axis) (number_said index) }
{
    let (axis, index) = both(axis, index)?;
    Ok(Record::Item(axis, index))
}

// `item`, axis, track index
#[tactic(auto, unfolding(sheet_forms::specs::Records::item_line))]
pub(crate) fn item_line(fields: &Fields<'_>) -> Result<Record, Fault>
    ensures { said_of result ≡ item_line (fields_of fields.now) }
{
    fields.check_count(ITEM_FIELDS)?;
    make_item(axis(fields.field(1)), count(fields.field(2), 0, LAST_TRACK))
}

// A placement of these parts.
#[tactic(auto, unfolding(sheet_forms::specs::Faults::first_of), using(sheet_forms::proofs::Parts::unless_fault))]
fn make_place(
    axis: Result<Axis, Fault>,
    start: Result<PlaceEnd, Fault>,
    end: Result<PlaceEnd, Fault>,
) -> Result<Record, Fault>
    ensures { said_of result ≡ made_place (axis_said axis) (end_said start) (end_said end) }
{
    let (axis, (start, end)) = both(axis, both(start, end))?;
    Ok(Record::Place(axis, Line { start, end }))
}

// `place`, axis, then kind, name, number for the start and for the end
#[tactic(auto, unfolding(sheet_forms::specs::Records::place_line), using(sheet_forms::proofs::Parts::place_only))]
pub(crate) fn place_line(fields: &Fields<'_>) -> Result<Record, Fault>
    ensures { said_of result ≡ place_line (fields_of fields.now) }
{
    fields.check_count(PLACE_FIELDS)?;
    make_place(
        axis(fields.field(1)),
        placement_end(fields.field(2), fields.field(3), fields.field(4)),
        placement_end(fields.field(5), fields.field(6), fields.field(7)),
    )
}

// A cell of these parts.
#[tactic(auto, unfolding(sheet_forms::specs::Faults::first_of), using(sheet_forms::proofs::Parts::unless_fault))]
fn make_cell(
    columnstart: Result<PlaceEnd, Fault>,
    columnend: Result<PlaceEnd, Fault>,
    rowstart: Result<PlaceEnd, Fault>,
    rowend: Result<PlaceEnd, Fault>,
) -> Result<Record, Fault>
    ensures { said_of result ≡ made_cell (end_said columnstart) (end_said columnend) (end_said rowstart) (end_said rowend) }
{
    let rows = both(rowstart, rowend);
    let (columnstart, (columnend, (rowstart, rowend))) = both(columnstart, both(columnend, rows))?;
    Ok(Record::Cell(CellRecord {
        columns: Line {
            start: columnstart,
            end: columnend,
        },
        rows: Line {
            start: rowstart,
            end: rowend,
        },
    }))
}

// `cell`, then kind, name, number for the start of its columns, for their end, for the start of its rows and for their end
#[tactic(auto, unfolding(sheet_forms::specs::Records::cell_line), using(sheet_forms::proofs::Parts::cell_only))]
pub(crate) fn cell_line(fields: &Fields<'_>) -> Result<Record, Fault>
    ensures { said_of result ≡ cell_line (fields_of fields.now) }
{
    fields.check_count(CELL_FIELDS)?;
    make_cell(
        cell_end(fields.field(1), fields.field(2), fields.field(3)),
        cell_end(fields.field(4), fields.field(5), fields.field(6)),
        cell_end(fields.field(7), fields.field(8), fields.field(9)),
        cell_end(fields.field(10), fields.field(11), fields.field(12)),
    )
}
