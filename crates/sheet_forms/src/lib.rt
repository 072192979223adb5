// One line of a panel sheet by itself: the record that its fields make, or its fault.

#![tactic(auto)]

pub mod fault;
pub mod field;
pub mod name;

ghost use Rattle.std.specs.Prelude.{◌≡◌};
ghost use Rattle.sheet_forms.specs.Answers.{end_kind_number, place_end};

use coordinates::{Axis, Fault, Line};
pub use fault::{both, first_fault, rank, rank_of_fault};
pub use name::check_name;
use template_rules::AutoRepeatStrategy;

// An `axis` line: the bits of the inner size where it is definite; the rule, `max` or `min`; the gap's word.
#[derive(Clone, Copy, Debug, PartialEq, Eq)]
pub struct AxisRecord {
    pub axis: Axis,
    pub inner: Option<u32>,
    pub rule: AutoRepeatStrategy,
    pub gap: u64,
}

// An `area` line; its name is field 1.
#[derive(Clone, Copy, Debug, PartialEq, Eq)]
pub struct AreaRecord {
    pub rowstart: u32,
    pub rowend: u32,
    pub columnstart: u32,
    pub columnend: u32,
}

// How often a `repeat` line says.
#[derive(Clone, Copy, Debug, PartialEq, Eq)]
pub enum Repetition {
    Count(u32),
    Fill,
    Fit,
}

// The kinds of an end of a `place` or `cell` line: `auto line named span nspan`.
#[derive(Clone, Copy, Debug, PartialEq, Eq)]
pub enum EndKind {
    Auto,
    Line,
    Named,
    Span,
    NamedSpan,
}

impl From<EndKind> for u32 {
    ghost from_gives = { λ kind number. number ≡ end_kind_number kind };

    // The number of a kind, in the order of the words.
    fn from(kind: EndKind) -> u32 {
        kind as u32
    }
}

// An end of a `place` or `cell` line: its kind, with the number where the kind uses one.
#[derive(Clone, Copy, Debug, PartialEq, Eq)]
pub enum PlaceEnd {
    Auto,
    Line(i32),
    Named(i32),
    Span(i32),
    NamedSpan(i32),
}

impl PlaceEnd {
    // The kind of an end.
    pub fn kind(self) -> EndKind
        ensures { end_kind_number result ≡ (place_end self).kind }
    {
        match self {
            PlaceEnd::Auto => EndKind::Auto,
            PlaceEnd::Line(_) => EndKind::Line,
            PlaceEnd::Named(_) => EndKind::Named,
            PlaceEnd::Span(_) => EndKind::Span,
            PlaceEnd::NamedSpan(_) => EndKind::NamedSpan,
        }
    }

    // Its number, 0 where the kind uses none.
    pub fn number(self) -> i32
        ensures { result ≡ (place_end self).number }
    {
        match self {
            PlaceEnd::Auto => 0,
            PlaceEnd::Line(number)
            | PlaceEnd::Named(number)
            | PlaceEnd::Span(number)
            | PlaceEnd::NamedSpan(number) => number,
        }
    }
}

// An end of a `place` or `cell` line as its fields are read: a fault, if there is one, and beside it what is read of the kind and the number,
// `auto` where no kind is, and 0 where no number is.
#[derive(Clone, Copy, Debug, PartialEq, Eq)]
pub struct EndField {
    pub fault: Option<Fault>,
    pub end: PlaceEnd,
}

// The sizes of a track, each a word.
#[derive(Clone, Copy, Debug, PartialEq, Eq)]
pub struct TrackSizes {
    pub min: u64,
    pub max: u64,
}

// A `cell` line: the ends of its columns, and of its rows; their names are fields 2, 5, 8 and 11.
#[derive(Clone, Copy, Debug, PartialEq, Eq)]
pub struct CellRecord {
    pub columns: Line<PlaceEnd>,
    pub rows: Line<PlaceEnd>,
}

// What a line says. A size is one word, its kind times 2^32 and its bits. Names stay in the line: field 1 of an `area`,
// field 2 of a `name`, fields 3 and 6 of a `place`. A `repeat` whose count is outside its range still says its axis, since inside a repeat of
// its axis it is unread before anything else. The words of a `row` are its fields from 1 on; the record says how many there are.
#[derive(Clone, Copy, Debug, PartialEq, Eq)]
pub enum Record {
    Axis(AxisRecord),
    Area(AreaRecord),
    Name(Axis),
    Track(Axis, TrackSizes),
    Repeat(Axis, Result<Repetition, Fault>),
    End(Axis),
    Spare(Axis, TrackSizes),
    Extra(Axis, u32, u32),
    Item(Axis, u32),
    Place(Axis, Line<PlaceEnd>),
    PictureRow(u32),
    Cell(CellRecord),
}

// Where a size stands: a minimum is of no maximum-only kind, a gap is a length or a percentage.
#[derive(Clone, Copy, Debug, PartialEq, Eq)]
pub enum Position {
    Minimum,
    Maximum,
    Gap,
}
