// The record of any line, by its kind, and where its names lie.
ghost use Rattle.std.specs.Prelude.{◌≡◌, cond, eqb};
ghost use Rattle.text.specs.Split.{split};
ghost use Rattle.sheet_forms.specs.Answers.{said_of};
ghost use Rattle.sheet_forms.specs.Names.{of_first, of_second, of_third, of_fourth};
ghost use Rattle.sheet_forms.specs.Records.{row_line, fixed_kind};
ghost use Rattle.sheet_lines.specs.Fields.{fields_of, line_kind_number};
ghost use Rattle.sheet_lines.specs.Read.{ReadAs};

use crate::LineRecord;
use crate::fields::Fields;
use crate::kinds::{LineKind, kind};
use crate::lines::{area_line, cell_line, extra_line, item_line, name_line, place_line};
use crate::row::row_line;
use crate::templates::{axis_line, end_line, repeat_line, spare_line, track_line};
use coordinates::Fault;
use sheet_forms::Record;
use text::field_place;
use text::fields::FIELDS;

// A line of a kind; one of none is unread. The words of a row may be more than the fields that are kept.
#[tactic(auto, unfolding(sheet_forms::specs::Records::fixed_kind))]
fn by_kind(kind: Option<LineKind>, fields: &Fields<'_>) -> Result<Record, Fault>
    ensures { said_of result ≡ cond (eqb (line_kind_number kind) 10) (row_line (split 9 fields.now.line.now)) (fixed_kind (line_kind_number kind) (fields_of fields.now)) }
{
    match kind {
        Some(LineKind::Axis) => axis_line(fields),
        Some(LineKind::Area) => area_line(fields),
        Some(LineKind::Name) => name_line(fields),
        Some(LineKind::Track) => track_line(fields),
        Some(LineKind::Repeat) => repeat_line(fields),
        Some(LineKind::End) => end_line(fields),
        Some(LineKind::Spare) => spare_line(fields),
        Some(LineKind::Extra) => extra_line(fields),
        Some(LineKind::Item) => item_line(fields),
        Some(LineKind::Place) => place_line(fields),
        Some(LineKind::Row) => row_line(fields.line),
        Some(LineKind::Cell) => cell_line(fields),
        None => Err(Fault::Unread),
    }
}

// The fields of a line that hold its first and its second name; past the fields that are kept where there is none.
fn name_fields(said: Result<Record, Fault>) -> (usize, usize)
    ensures { (result.0 ≡ of_first 14 (λ k. k) (said_of said)) × (result.1 ≡ of_second 14 (λ k. k) (said_of said)) }
{
    match said {
        Ok(Record::Area(_)) => (1, FIELDS),
        Ok(Record::Name(_)) => (2, FIELDS),
        Ok(Record::Place(_, _)) => (3, 6),
        Ok(Record::Cell(_)) => (2, 5),
        _ => (FIELDS, FIELDS),
    }
}

// And those of its third and its fourth name, which are of a cell's rows.
fn row_name_fields(said: Result<Record, Fault>) -> (usize, usize)
    ensures { (result.0 ≡ of_third 14 (λ k. k) (said_of said)) × (result.1 ≡ of_fourth 14 (λ k. k) (said_of said)) }
{
    match said {
        Ok(Record::Cell(_)) => (8, 11),
        _ => (FIELDS, FIELDS),
    }
}

// The record that a line makes, and where its names lie in the line.
pub fn read_record(line: &[u8]) -> LineRecord
    ensures { ReadAs line.now result }
{
    let fields = Fields::cut(line);
    let said = by_kind(kind(fields.field(0)), &fields);
    let (first, second) = name_fields(said);
    let (third, fourth) = row_name_fields(said);
    LineRecord {
        said,
        first: field_place(&fields.starts, first),
        second: field_place(&fields.starts, second),
        third: field_place(&fields.starts, third),
        fourth: field_place(&fields.starts, fourth),
    }
}
