// A line cut once: where its fields start, and the part that each of them is.
ghost use Rattle.std.specs.Prelude.{◌≡◌, ◌-◌, length};
ghost use Rattle.std.proofs.lemmas.List.Edits.{sets};
ghost use Rattle.text.specs.Split.{split};
ghost use Rattle.text.specs.Places.{starts_from, part_at, place_by, field_by};

use coordinates::{part_of, set_at};

// The most fields whose places are kept: no line of any form has more.
pub const FIELDS: usize = 14;

// The starts of so many fields, and of the one that would come after them.
pub const STARTS: usize = FIELDS + 1;

// A part of a text.
#[derive(Clone, Copy, Debug, Default, PartialEq, Eq)]
pub struct Place {
    pub offset: usize,
    pub length: usize,
}

// How many parts the separator b cuts s into; where each of them starts, and the one that would come after the last, as far as there is room.
pub fn cut_parts(s: &[u8], b: u8, starts: &mut [usize]) -> usize
    ensures { (result ≡ length (split b s.now)) × (starts.new ≡ sets starts.old 0 (starts_from 0 (split b s.now))) }
{
    let mut count = 0;
    let mut at = 0;
    for part in s.split(|x| *x == b) {
        set_at(starts, count, at);
        at += part.len() + 1;
        count += 1;
    }
    set_at(starts, count, at);
    count
}

// Where field k lies; the empty place past the fields that are kept.
#[tactic(auto, unfolding(crate::specs::Places::place_by))]
pub fn field_place(starts: &[usize; STARTS], k: usize) -> Place
    ensures { result ≡ place_by starts.now k }
{
    if FIELDS <= k {
        return Place::default();
    }
    let start = starts[k];
    let next = starts[k + 1];
    Place {
        offset: start,
        length: next.saturating_sub(start).saturating_sub(1),
    }
}

// The part of a text at a place, cut where the text ends.
pub fn part_at(s: &[u8], place: Place) -> &[u8]
    ensures { result.now ≡ part_at s.now place }
{
    part_of(s, place.offset, place.length)
}

// Field k of a line that is cut at these starts.
pub fn field<'a>(line: &'a [u8], starts: &[usize; STARTS], k: usize) -> &'a [u8]
    ensures { result.now ≡ field_by starts.now line.now k }
{
    part_at(line, field_place(starts, k))
}
