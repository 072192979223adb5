// How often a repeat is written: a count, `fill` or `fit`.
ghost use Rattle.std.specs.Prelude.{◌≡◌};
ghost use Rattle.sheet_forms.specs.Answers.{repetition_said};
ghost use Rattle.sheet_forms.specs.Fields.{repetition_of};

use coordinates::Fault;
use sheet_forms::Repetition;
use sheet_forms::field::count;

// A repetition that a field writes.
#[tactic(auto, unfolding(sheet_forms::specs::Fields::repetition_of, text::specs::Split::index, text::specs::Split::same))]
pub fn repetition(f: &[u8]) -> Result<Repetition, Fault>
    ensures { repetition_said result ≡ repetition_of f.now }
{
    match f {
        b"fill" => Ok(Repetition::Fill),
        b"fit" => Ok(Repetition::Fit),
        _ => Ok(Repetition::Count(count(f, 0, u32::from(u16::MAX))?)),
    }
}
