// The one look into the tables: the line that a question asks for.
ghost use Rattle.name_lines.specs.Marks.{seek_of};
ghost use Rattle.name_resolver.specs.Placements.{name_of};
ghost use Rattle.name_resolver.specs.Questions.{found_by};
ghost use Rattle.panel_tables.specs.Regions.{placement_bytes_in};
ghost use Rattle.panel_resolving.specs.Asking.{asks_own, edge_for, nth_for, stem_for};
ghost use Rattle.panel_resolving.specs.Names.{names_beside};
ghost use Rattle.std.specs.Prelude.{◌≡◌};

use crate::Beside;
use crate::search::find_line;
use axis_tables::layout::part_from;
use name_lines::{GridAreaEnd, JoinedName, NthLine};
use name_resolver::{Name, Question};
use panel_tables::region::placement_bytes;

// The bytes of a placement's name.
fn name_of(names: &[u8], name: Name) -> &[u8]
    ensures { result.now ≡ name_of names.now name }
{
    part_from(names, name.offset as usize, name.length)
}

// Whether the lines of the name itself are asked for first, and not an edge of its area.
fn asks_own(edge: Option<GridAreaEnd>) -> bool
    ensures { result ≡ asks_own edge }
{
    edge.is_none()
}

// The name that is sought for a question: the name itself, or an edge of its area.
fn name_for(question: Question, own: bool, name: &[u8]) -> JoinedName<'_>
    ensures edge { result.edge ≡ edge_for question own name.now }
    ensures stem { result.stem.now ≡ stem_for question own name.now }
{
    if own {
        return JoinedName::from(name);
    }
    JoinedName {
        stem: name,
        edge: question.edge,
    }
}

// Which of its lines is sought: the one that is asked for, or the first that the edge has.
fn nth_for(question: Question, own: bool) -> NthLine
    ensures { result ≡ nth_for question own }
{
    if own { question.nth } else { NthLine::FIRST }
}

// The line that a question asks for: an edge of the name's area first, where it asks for one, then the lines of the name. One call for
// both is faster than two: it is compiled in its place.
pub(crate) fn find_named_line(beside: Beside, question: Question) -> Result<u32, u32>
    ensures { seek_of result ≡ found_by (names_beside beside.entry) (name_of (placement_bytes_in beside.entry.bytes.now) question.name) question }
{
    let name = name_of(placement_bytes(beside.bytes), question.name);
    let mut own = asks_own(question.edge);
    loop {
        let sought = name_for(question, own, name);
        match find_line(beside, sought, nth_for(question, own)) {
            Ok(line) => return Ok(line),
            Err(m) => {
                if own {
                    return Err(m);
                }
                own = true;
            }
        }
    }
}
