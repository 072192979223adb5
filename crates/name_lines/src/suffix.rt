// Names in two parts: a stem, and `-start`, `-end` or nothing.
ghost use Rattle.name_rules.specs.Rule.{eq_bytes};
ghost use Rattle.name_lines.specs.Suffixes.{edge_of, stem_of, tail_of};
ghost use Rattle.name_entries.specs.Entries.{entry_of, name_in};
ghost use Rattle.std.specs.Prelude.{◌++◌, ◌≡◌};

use crate::{GridAreaEnd, JoinedName};
use name_entries::{NameEntry, bytes, entry};

// `split_area_edge_name`: the edge of an area that a name stands for, where it ends in `-start` or `-end`.
#[tactic(auto, unfolding(crate::specs::Suffixes::edge_of), using(crate::proofs::Suffixes::ends_tail))]
pub fn edge_of(name: &[u8]) -> Option<GridAreaEnd>
    ensures { result ≡ edge_of name.now }
{
    if name.ends_with(b"-start") {
        return Some(GridAreaEnd::Start);
    }
    if name.ends_with(b"-end") {
        return Some(GridAreaEnd::End);
    }
    None
}

// The bytes after the stem.
fn tail_of(edge: Option<GridAreaEnd>) -> &'static [u8]
    ensures { result.now ≡ tail_of edge }
{
    match edge {
        Some(GridAreaEnd::Start) => b"-start",
        Some(GridAreaEnd::End) => b"-end",
        None => b"",
    }
}

// The part of a name before the suffix of an edge.
pub fn stem_of(name: &[u8], edge: Option<GridAreaEnd>) -> &[u8]
    ensures { result.now ≡ stem_of name.now edge }
{
    &name[..name.len().saturating_sub(tail_of(edge).len())]
}

// Whether the name is the stem followed by the tail. A name of another length is told without a look at its bytes.
#[inline(always)]
#[tactic(auto, using(crate::proofs::Suffixes::joined, crate::proofs::Suffixes::not_joined, crate::proofs::Suffixes::other_length))]
pub fn is_joined(name: &[u8], stem: &[u8], tail: &[u8]) -> bool
    ensures { result ≡ eq_bytes name.now (stem.now ++ tail.now) }
{
    if name.len() != stem.len() + tail.len() {
        return false;
    }
    name.strip_suffix(tail)
        .is_some_and(|front| bytes::same_bytes(front, stem))
}

impl<'a> From<&'a [u8]> for JoinedName<'a> {
    ghost from_gives = { λ name joined. (joined.edge ≡ edge_of name.now) × (joined.stem.now ≡ stem_of name.now (edge_of name.now)) };

    // The parts of a name, by the edge that it stands for.
    fn from(name: &'a [u8]) -> JoinedName<'a> {
        let edge = edge_of(name);
        JoinedName {
            stem: stem_of(name, edge),
            edge,
        }
    }
}

// Whether an entry has the name.
#[inline(always)]
pub fn has_name(store: &[u8], word: u64, name: JoinedName) -> bool
    ensures { result ≡ eq_bytes (name_in store.now (entry_of word)) (name.entry.stem.now ++ tail_of name.entry.edge) }
{
    let found = entry::name_in(store, NameEntry::from(word));
    match name.edge {
        Some(GridAreaEnd::Start) => is_joined(found, name.stem, b"-start"),
        Some(GridAreaEnd::End) => is_joined(found, name.stem, b"-end"),
        None => is_joined(found, name.stem, b""),
    }
}
