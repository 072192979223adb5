// The tracks of a component, which repeat.
ghost use Rattle.std.specs.Prelude.{◌≡◌};
ghost use Rattle.track_record.specs.Repeats.{repeated_of, has_fit};

use crate::Repeated;
use crate::cursor::{is_fit, source_of};
use template_rules::GridTemplateComponent;

// The tracks of a component.
#[tactic(auto, unfolding(crate::specs::Repeats::repeated_of))]
pub fn repeated_of(word: u64) -> Repeated
    ensures { result ≡ repeated_of word }
{
    let component = GridTemplateComponent::from(word);
    Repeated {
        first: component.first,
        length: component.length,
        source: source_of(component.count),
        fit: is_fit(component.count),
    }
}

// Whether `fit` writes the tracks of any component.
pub fn has_fit(components: &[u64]) -> bool
    ensures { result ≡ has_fit components.now }
{
    components.iter().any(|word| repeated_of(*word).fit)
}
