// What a line is to a picture, by its first field and how many fields it has.
ghost use Rattle.std.specs.Prelude.{◌≡◌, ◌≤◌, Some};
ghost use Rattle.text.specs.Split.{split};
ghost use Rattle.sheet_lines.specs.Fields.{line_kind_number};
ghost use Rattle.picture_end.specs.Steps.{class_number, class_of, fields_or_none, later_fields, row_by, class_by};

use sheet_lines::fields::{
    AREA_FIELDS, CELL_FIELDS, END_FIELDS, EXTRA_FIELDS, Fields, ITEM_FIELDS, NAME_FIELDS,
    PLACE_FIELDS, REPEAT_FIELDS, SIZES_FIELDS,
};
use sheet_lines::{LineKind, kind};
use text::field;

// What a line is to a picture.
#[derive(Clone, Copy, Debug, PartialEq, Eq)]
pub enum LineClass {
    // It neither is a row nor ends a picture: an `axis` line, or one of no form.
    Between,
    Row,
    // After it a row is late.
    Later,
}

// The fields of a line of a kind after which a row is late, if it is one.
#[tactic(auto, unfolding(crate::specs::Steps::later_fields))]
fn later_fields(kind: LineKind) -> Option<usize>
    ensures { fields_or_none result ≡ later_fields (line_kind_number (Some kind)) }
{
    match kind {
        LineKind::Axis => None,
        LineKind::Area => Some(AREA_FIELDS),
        LineKind::Name => Some(NAME_FIELDS),
        LineKind::Track => Some(SIZES_FIELDS),
        LineKind::Repeat => Some(REPEAT_FIELDS),
        LineKind::End => Some(END_FIELDS),
        LineKind::Spare => Some(SIZES_FIELDS),
        LineKind::Extra => Some(EXTRA_FIELDS),
        LineKind::Item => Some(ITEM_FIELDS),
        LineKind::Place => Some(PLACE_FIELDS),
        LineKind::Row => None,
        LineKind::Cell => Some(CELL_FIELDS),
    }
}

// A line whose first field is `row`: it has one word or more.
fn row_by(fields: usize) -> LineClass
    ensures { class_number result ≡ row_by fields }
{
    if 2 <= fields {
        LineClass::Row
    } else {
        LineClass::Between
    }
}

// A line of that kind with so many fields.
#[tactic(auto, using(crate::proofs::Classes::of_no_kind, crate::proofs::Classes::of_later, crate::proofs::Classes::of_others))]
fn class_by(kind: Option<LineKind>, fields: usize) -> LineClass
    requires { 1 ≤ fields }
    ensures { class_number result ≡ class_by (line_kind_number kind) fields }
{
    match kind {
        Some(LineKind::Row) => row_by(fields),
        Some(kind) if later_fields(kind) == Some(fields) => LineClass::Later,
        _ => LineClass::Between,
    }
}

// Any line.
pub fn line_class(line: &[u8]) -> LineClass
    ensures { class_number result ≡ class_of (split 9 line.now) }
{
    let fields = Fields::cut(line);
    class_by(kind(field(line, &fields.starts, 0)), fields.count)
}
