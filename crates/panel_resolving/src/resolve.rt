// A placement beside the names of an axis: each end asks for a line, or is resolved as written.
ghost use Rattle.std.specs.Prelude.{◌≤◌, ◌≡◌};
ghost use Rattle.name_resolver.specs.Placements.{answered_resolution};
ghost use Rattle.name_resolver.specs.Questions.{answered};
ghost use Rattle.name_resolver.specs.Steps.{question_of};
ghost use Rattle.panel_tables.specs.Regions.{placement_bytes_in};
ghost use Rattle.panel_resolving.specs.Asking.{next_end};
ghost use Rattle.panel_resolving.specs.Names.{names_beside, resolution_by};

use crate::Beside;
use crate::find::find_named_line;
use coordinates::Fault;
use coordinates::line::check_explicit;
use name_resolver::ask::question_of;
use name_resolver::ends::{first_end, resolved_ends, second_end};
use name_resolver::found::found_end;
use name_resolver::{Asked, End, ResolvedEnd, ResolvedPlacement, WrittenLine};

// One end.
fn resolve_end(beside: Beside, end: End) -> ResolvedEnd
    requires { beside.around.explicit ≤ 10000 }
    ensures { result ≡ answered (names_beside beside.entry) (placement_bytes_in beside.entry.bytes.now) beside.entry.around.explicit (question_of beside.entry.around.explicit end) }
{
    let explicit = beside.around.explicit as u16;
    match question_of(explicit, end) {
        Asked::Resolved(resolved) => resolved,
        Asked::Line(question) => {
            let found = find_named_line(beside, question);
            found_end(explicit, question, found)
        }
    }
}

// The end that is resolved next: the first, then the other beside its line.
fn next_end(line: WrittenLine, first: Option<ResolvedEnd>) -> End
    ensures { result ≡ next_end line first }
{
    match first {
        Some(first) => second_end(line, first),
        None => first_end(line),
    }
}

// Both ends, by one look into the tables for each that asks. Refused by 4 where the explicit count is above 10,000. One call for both
// ends is faster than two: it is compiled in its place.
#[tactic(auto, unfolding(crate::specs::Names::resolution_by, name_resolver::specs::Questions::answered_line))]
pub(crate) fn resolve_line_names(
    beside: Beside,
    line: WrittenLine,
) -> Result<ResolvedPlacement, Fault>
    ensures { answered_resolution result ≡ resolution_by beside.entry.around.explicit (names_beside beside.entry) (placement_bytes_in beside.entry.bytes.now) line }
{
    check_explicit(beside.around.explicit)?;
    let mut first = None;
    loop {
        let resolved = resolve_end(beside, next_end(line, first));
        match first {
            Some(first) => return Ok(resolved_ends(line, first, resolved)),
            None => first = Some(resolved),
        }
    }
}
