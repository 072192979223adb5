// The answer for an axis: its least resize, or the refusal of an axis that has none to ask for.
ghost use Rattle.std.specs.Prelude.{◌≡◌};
ghost use Rattle.least_resize.specs.Answer.{size_now, resize_answer, definite_number, bits_of_inner, answered_resize};
ghost use Rattle.template_rules.specs.Template.{components_of};

use crate::ResizeAnswer;
use crate::search::least_resize;
use crate::whole::whole_size;
use coordinates::Fault;
use explicit_size::repeat::repeats_automatically;
use sizing::Sizing;
use sizing::definite::length_alone;
use template_rules::{AutoRepeatStrategy, Template};

// The size now, where the axis has an inner size and it is whole.
fn size_now(inner: Option<u32>) -> Option<u16>
    ensures { result ≡ size_now (definite_number inner) (bits_of_inner inner) }
{
    whole_size(inner?)
}

impl From<Result<Option<u32>, Fault>> for ResizeAnswer {
    ghost from_gives = { λ found answer. answer ≡ answered_resize found };

    // The answer as numbers, for programs in C.
    fn from(found: Result<Option<u32>, Fault>) -> ResizeAnswer {
        match found {
            Ok(Some(size)) => ResizeAnswer {
                found: 1,
                size,
                ..ResizeAnswer::default()
            },
            Ok(None) => ResizeAnswer::default(),
            Err(fault) => ResizeAnswer {
                number: u32::from(fault),
                ..ResizeAnswer::default()
            },
        }
    }
}

// The least resize of an axis: from its template, the bits of its inner size, where it has one, the rule and the gap. 3: the
// template counts as none or has no automatic repeat, there is no inner size, it is not whole, or the gap is no length.
#[tactic(auto, unfolding(crate::specs::Answer::resize_answer))]
pub fn resize_answer(
    template: Template<'_>,
    inner: Option<u32>,
    strategy: AutoRepeatStrategy,
    gap: Sizing,
) -> Result<Option<u32>, Fault>
    ensures { answered_resize result ≡ resize_answer (definite_number inner) (bits_of_inner inner) strategy gap (components_of template.entry) }
{
    if !repeats_automatically(template) {
        return Err(Fault::Value);
    }
    let length = length_alone(gap).ok_or(Fault::Value)?;
    let size = size_now(inner).ok_or(Fault::Value)?;
    Ok(least_resize(template, strategy, length, size))
}
