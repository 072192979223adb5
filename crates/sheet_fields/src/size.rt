// Sizes: a kind and the bits of its value, and the inner size.
ghost use Rattle.std.specs.Prelude.{◌≡◌};
ghost use Rattle.sizing.specs.Kinds.{number_of_kind};
ghost use Rattle.sheet_forms.specs.Answers.{inner_said, size_said, size_kind_said};
ghost use Rattle.sheet_forms.specs.Sizes.{kind_of, allowed_at, value_field, size_of, inner_of};

use coordinates::Fault;
use sheet_forms::Position;
use sizing::Kind;
use sizing::range::{length_in_range, value_in_range};
use sizing::word::size_word;
use text::read_bits;

// The kind of size that a field names, if any.
#[tactic(auto, unfolding(sheet_forms::specs::Sizes::kind_of, text::specs::Split::index, text::specs::Split::same))]
fn kind(f: &[u8]) -> Option<Kind>
    ensures { size_kind_said result ≡ kind_of f.now }
{
    match f {
        b"len" => Some(Kind::Length),
        b"fr" => Some(Kind::Fraction),
        b"auto" => Some(Kind::Auto),
        b"pct" => Some(Kind::Percent),
        b"min" => Some(Kind::MinContent),
        b"max" => Some(Kind::MaxContent),
        b"fitl" => Some(Kind::FitContentLength),
        b"fitp" => Some(Kind::FitContentPercent),
        _ => None,
    }
}

// Whether a kind may stand there.
fn allowed(position: Position, kind: Kind) -> bool
    ensures { result ≡ allowed_at position (number_of_kind kind) }
{
    match position {
        Position::Minimum => kind.is_of_minimum(),
        Position::Maximum => true,
        Position::Gap => matches!(kind, Kind::Length | Kind::Percent),
    }
}

// A value of a kind, as a word.
fn word(kind: Kind, bits: u32) -> Result<u64, Fault>
    ensures { size_said result ≡ value_field (number_of_kind kind) bits }
{
    if value_in_range(kind, bits) {
        Ok(size_word(kind, bits))
    } else {
        Err(Fault::Value)
    }
}

// A size that two fields write.
#[tactic(auto, unfolding(sheet_forms::specs::Sizes::size_of))]
pub fn size(position: Position, f: &[u8], g: &[u8]) -> Result<u64, Fault>
    ensures { size_said result ≡ size_of position f.now g.now }
{
    match (kind(f), read_bits(g)) {
        (Some(kind), Some(bits)) if allowed(position, kind) => word(kind, bits),
        _ => Err(Fault::Unread),
    }
}

// An inner size, or `-` for none.
#[tactic(auto, unfolding(sheet_forms::specs::Sizes::inner_of), using(text::proofs::Library::same_pointwise))]
pub fn inner(f: &[u8]) -> Result<Option<u32>, Fault>
    ensures { inner_said result ≡ inner_of f.now }
{
    if f == b"-".as_slice() {
        return Ok(None);
    }
    let bits = read_bits(f).ok_or(Fault::Unread)?;
    if length_in_range(bits) {
        Ok(Some(bits))
    } else {
        Err(Fault::Value)
    }
}
