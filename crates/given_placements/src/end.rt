// An end of a placement by argument: what it is refused by, and how the tables hold it.
ghost use Rattle.std.specs.Prelude.{◌≡◌};
ghost use Rattle.coordinates.specs.Refusals.{refused_by};
ghost use Rattle.panel_tables.specs.Placements.{end_named, uses_name};
ghost use Rattle.given_placements.specs.Ends.{given_fault, is_unnamed, outside_of, used_end, used_name, used_number};

use coordinates::Fault;
use name_entries::name::is_name;
use panel_tables::PlacementEnd;
use panel_writes::place_record::NamedEnd;

// The number of the rows, the last of an axis.
const ROWS: u32 = 1;

// Whether a kind uses a name: `named` and `nspan` do.
fn uses_name(kind: u32) -> bool
    ensures { result ≡ uses_name kind }
{
    kind == 2 || kind == 4
}

// Whether the name that an end uses is none.
fn is_unnamed(end: NamedEnd<'_>) -> bool
    ensures { result ≡ is_unnamed (end_named end.entry.end end.entry.name.now) }
{
    uses_name(end.end.kind) && !is_name(end.name)
}

// Whether a kind is none, or the number that it uses is outside its range: line indexes are -32,768 to 32,767, spans 0 to 65,535.
fn is_outside(end: PlacementEnd) -> bool
    ensures { result ≡ outside_of end.kind end.number }
{
    match end.kind {
        0 => false,
        1 => i16::try_from(end.number).is_err(),
        2 => i16::try_from(end.number).is_err(),
        3 => u16::try_from(end.number).is_err(),
        4 => u16::try_from(end.number).is_err(),
        _ => true,
    }
}

// Whether a placement is refused. 2: a used name that is none; 4: an axis, a kind or a used number outside its range.
#[tactic(auto, unfolding(crate::specs::Ends::given_fault))]
pub(crate) fn check_given(axis: u32, start: NamedEnd<'_>, end: NamedEnd<'_>) -> Result<(), Fault>
    ensures { refused_by result ≡ given_fault axis (end_named start.entry.end start.entry.name.now) (end_named end.entry.end end.entry.name.now) }
{
    if is_unnamed(start) || is_unnamed(end) {
        return Err(Fault::Name);
    }
    if ROWS < axis || is_outside(start.end) || is_outside(end.end) {
        return Err(Fault::Count);
    }
    Ok(())
}

// The number that an end uses, 0 where it uses none.
fn used_number(end: PlacementEnd) -> i32
    ensures { result ≡ used_number end }
{
    if end.kind == 0 { 0 } else { end.number }
}

// The name that an end uses, empty where it uses none.
fn used_name(end: NamedEnd<'_>) -> &[u8]
    ensures { result.now ≡ used_name (end_named end.entry.end end.entry.name.now) }
{
    if uses_name(end.end.kind) {
        end.name
    } else {
        &[]
    }
}

// An end with what its kind uses, as a line of a sheet gives it.
pub(crate) fn used_end(end: NamedEnd<'_>) -> NamedEnd<'_>
    ensures { end_named result.end result.name.now ≡ used_end (end_named end.entry.end end.entry.name.now) }
{
    NamedEnd {
        end: PlacementEnd {
            kind: end.end.kind,
            number: used_number(end.end),
        },
        name: used_name(end),
    }
}
