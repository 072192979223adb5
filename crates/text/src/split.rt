// The parts between the separators of a text.
ghost use Rattle.std.specs.Prelude.{◌≡◌, [], ◌+◌, drop, get_or, MatchOption};
ghost use Rattle.text.specs.Split.{before, split, Absent, FirstAt};

// What parts the fields of a line.
pub const TAB: u8 = b'\t';

// What ends a line.
pub const LINE_FEED: u8 = b'\n';

// The first place from `at` on where `b` stands, if any.
pub fn find(s: &[u8], at: usize, b: u8) -> Option<usize>
    ensures { MatchOption result (Absent b at s.now) (FirstAt b at s.now) }
{
    let rest = s.get(at..)?;
    let place = rest.iter().position(|x| *x == b)?;
    Some(at + place)
}

// Where the part that starts at `at` ends: at the first `b`, or where the text does; `at` itself past the length.
#[tactic(auto, using(crate::proofs::Laws::end_absent))]
pub fn part_end(s: &[u8], at: usize, b: u8) -> usize
    ensures { result ≡ at + before b (drop at s.now) }
{
    find(s, at, b).unwrap_or(s.len().max(at))
}

// Part k of what the separator b cuts s into; empty where there are not so many.
pub fn part(s: &[u8], b: u8, k: usize) -> &[u8]
    ensures { result.now ≡ get_or (split b s.now) k [] }
{
    s.split(|x| *x == b).nth(k).unwrap_or(&[])
}
