// Placements of the table as the resolver reads them.
ghost use Rattle.std.specs.Prelude.{◌≡◌};
ghost use Rattle.panel_rules.specs.Placing.{held_index, held_span, name_at, end_by, end_placement, line_placement};

use coordinates::{GridLine, Line};
use name_resolver::{GridPlacement, Name, WrittenLine};
use panel_tables::{EndPlace, PlacementPlace};

// A line index, or the nearest.
fn held_index(number: i32) -> i16
    ensures { result ≡ held_index number }
{
    number.clamp(i16::MIN.into(), i16::MAX.into()) as i16
}

// A span, or the nearest.
fn held_span(number: i32) -> u16
    ensures { result ≡ held_span number }
{
    number.clamp(0, u16::MAX.into()) as u16
}

// Where the name of an end lies.
fn name_at(end: EndPlace) -> Name
    ensures { result ≡ name_at end }
{
    Name {
        offset: end.offset,
        length: end.length,
    }
}

// An end of that kind; what is no kind is read as `auto`.
fn end_by(kind: u32, end: EndPlace) -> GridPlacement
    ensures { result ≡ end_by kind end }
{
    let number = end.end.number;
    match kind {
        0 => GridPlacement::Auto,
        1 => GridPlacement::Line(GridLine(held_index(number))),
        2 => GridPlacement::NamedLine(name_at(end), held_index(number)),
        3 => GridPlacement::Span(held_span(number)),
        4 => GridPlacement::NamedSpan(name_at(end), held_span(number)),
        _ => GridPlacement::Auto,
    }
}

// An end as the resolver reads it.
fn end_placement(end: EndPlace) -> GridPlacement
    ensures { result ≡ end_placement end }
{
    end_by(end.end.kind, end)
}

// Both ends.
pub fn line_placement(place: PlacementPlace) -> WrittenLine
    ensures { result ≡ line_placement place }
{
    Line {
        start: end_placement(place.start),
        end: end_placement(place.end),
    }
}
