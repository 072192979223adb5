// An end of a placement, or of a cell: three fields, kind, name and number.
ghost use Rattle.std.specs.Prelude.{◌≡◌, cond, pos};
ghost use Rattle.coordinates.specs.Refusals.{refused_by};
ghost use Rattle.text.specs.Split.{same};
ghost use Rattle.text.specs.Whole.{whole_of, index_in};
ghost use Rattle.sheet_forms.specs.Answers.{end_kind_number, kind_said, integer_said, place_end, end_field, end_of_kind, end_said, end_where_read};
ghost use Rattle.sheet_forms.specs.Fields.{count_of};
ghost use Rattle.sheet_forms.specs.Ends.{end_kind, end_name, index_field, span_field, end_number, numbered_end, made_end, end_within, end_of, cell_end_of};

use coordinates::Fault;
use sheet_forms::field::count;
use sheet_forms::{EndField, EndKind, PlaceEnd, both, check_name};
use text::read_index;

// The largest span of a placement, and of a name.
const MOST_SPAN: u16 = u16::MAX;

// The largest plain span of a cell.
const MOST_CELL_SPAN: u16 = 32;

// The kind of end that a field names, if any.
#[tactic(auto, unfolding(sheet_forms::specs::Ends::end_kind, text::specs::Split::index, text::specs::Split::same))]
fn kind(f: &[u8]) -> Option<EndKind>
    ensures { kind_said result ≡ end_kind f.now }
{
    match f {
        b"line" => Some(EndKind::Line),
        b"named" => Some(EndKind::Named),
        b"span" => Some(EndKind::Span),
        b"auto" => Some(EndKind::Auto),
        b"nspan" => Some(EndKind::NamedSpan),
        _ => None,
    }
}

// A field that its kind of end does not use has this text alone.
#[tactic(auto, using(text::proofs::Library::same_pointwise))]
fn unused(f: &[u8], text: &[u8]) -> Result<(), Fault>
    ensures { refused_by result ≡ cond (same f.now text.now) 0 1 }
{
    if f == text {
        Ok(())
    } else {
        Err(Fault::Unread)
    }
}

// The name of an end: `named` and `nspan` use theirs.
#[tactic(auto, unfolding(sheet_forms::specs::Ends::end_name))]
fn end_name(kind: EndKind, f: &[u8]) -> Result<(), Fault>
    ensures { refused_by result ≡ end_name (end_kind_number kind) f.now }
{
    match kind {
        EndKind::Named | EndKind::NamedSpan => check_name(f),
        EndKind::Auto | EndKind::Line | EndKind::Span => unused(f, b"-"),
    }
}

// A line index.
fn index(f: &[u8]) -> Result<i32, Fault>
    ensures { integer_said result ≡ index_field (index_in (whole_of f.now)) }
{
    Ok(i32::from(read_index(f)?))
}

// A span from least to most.
#[tactic(auto, using(sheet_forms::proofs::Codes::count_most))]
fn span(f: &[u8], least: u16, most: u16) -> Result<i32, Fault>
    ensures { integer_said result ≡ span_field (count_of least most f.now) }
{
    Ok(count(f, u32::from(least), u32::from(most))? as i32)
}

// An end of that kind with its number: a line index of `line` and `named`, a span of `span` and `nspan`, the plain one from least to most.
#[tactic(auto, unfolding(sheet_forms::specs::Ends::end_number))]
fn end_number(kind: EndKind, f: &[u8], least: u16, most: u16) -> Result<PlaceEnd, Fault>
    ensures { end_of_kind (end_kind_number kind) result ≡ numbered_end least most (end_kind_number kind) f.now }
{
    match kind {
        EndKind::Auto => unused(f, b"0").map(|()| PlaceEnd::Auto),
        EndKind::Line => index(f).map(PlaceEnd::Line),
        EndKind::Named => index(f).map(PlaceEnd::Named),
        EndKind::Span => span(f, least, most).map(PlaceEnd::Span),
        EndKind::NamedSpan => span(f, 0, MOST_SPAN).map(PlaceEnd::NamedSpan),
    }
}

// An end of that kind with number 0.
fn without_number(kind: EndKind) -> PlaceEnd
    ensures { place_end result ≡ record { kind = end_kind_number kind; number = pos 0 } }
{
    match kind {
        EndKind::Auto => PlaceEnd::Auto,
        EndKind::Line => PlaceEnd::Line(0),
        EndKind::Named => PlaceEnd::Named(0),
        EndKind::Span => PlaceEnd::Span(0),
        EndKind::NamedSpan => PlaceEnd::NamedSpan(0),
    }
}

// An end of that kind with its name and its number, its plain span from least to most.
fn known_end(kind: EndKind, name: &[u8], number: &[u8], least: u16, most: u16) -> EndField
    ensures { end_field result ≡ made_end (kind_said (Some kind)) (end_name (end_kind_number kind) name.now) (end_number least most (end_kind_number kind) number.now) }
{
    let end = end_number(kind, number, least, most);
    EndField {
        fault: both(end_name(kind, name), end).err(),
        end: end.unwrap_or(without_number(kind)),
    }
}

// An end that three fields write, its plain span from least to most.
fn end_within(f: &[u8], name: &[u8], number: &[u8], least: u16, most: u16) -> EndField
    ensures { end_field result ≡ end_within least most f.now name.now number.now }
{
    match kind(f) {
        Some(kind) => known_end(kind, name, number, least, most),
        None => EndField {
            fault: Some(Fault::Unread),
            end: PlaceEnd::Auto,
        },
    }
}

// The end that was read, or its fault.
#[tactic(auto, using(sheet_forms::proofs::Together::fault_number))]
fn read(field: EndField) -> Result<PlaceEnd, Fault>
    ensures { end_said result ≡ end_where_read (end_field field) }
{
    match field.fault {
        None => Ok(field.end),
        Some(fault) => Err(fault),
    }
}

// An end of a placement, with what is read of it beside a fault.
pub fn end(f: &[u8], name: &[u8], number: &[u8]) -> EndField
    ensures { end_field result ≡ end_of f.now name.now number.now }
{
    end_within(f, name, number, 0, MOST_SPAN)
}

// An end of a placement, or its fault.
pub fn placement_end(f: &[u8], name: &[u8], number: &[u8]) -> Result<PlaceEnd, Fault>
    ensures { end_said result ≡ end_where_read (end_of f.now name.now number.now) }
{
    read(end(f, name, number))
}

// An end of a cell, which spans one track at least.
pub fn cell_end(f: &[u8], name: &[u8], number: &[u8]) -> Result<PlaceEnd, Fault>
    ensures { end_said result ≡ end_where_read (cell_end_of f.now name.now number.now) }
{
    read(end_within(f, name, number, 1, MOST_CELL_SPAN))
}
