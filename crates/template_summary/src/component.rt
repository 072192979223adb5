// Components as the words of a template hold them.
ghost use Rattle.std.specs.Prelude.{◌≡◌, ◌≤◌};
ghost use Rattle.template_rules.specs.Template.{component_of};
ghost use Rattle.template_rules.specs.Summary.{steps_inside};
ghost use Rattle.template_rules.specs.Steps.{cut_after};
ghost use Rattle.template_rules.specs.Bounds.{CountOfWord};
ghost use Rattle.template_rules.proofs.Bounds.{CountOfWord-prop};

use template_rules::{GridTemplateComponent, RepetitionCount};

// A component of a word, whose fields bound its numbers.
#[derive(Clone, Copy, Debug, PartialEq, Eq)]
pub(crate) struct WordComponent {
    pub parts: GridTemplateComponent,
    ghost counted: { CountOfWord parts.count parts.length } by { CountOfWord-prop parts.count parts.length },
    ghost small: { (parts.first ≤ 65535) × (parts.length ≤ 65535) },
}

// How many steps are inside a component: one for each track of a repeat, none for a single.
pub(crate) fn steps_inside(component: GridTemplateComponent) -> u64
    ensures { result ≡ steps_inside component.count component.length }
{
    match component.count {
        RepetitionCount::Single => 0,
        _ => component.length,
    }
}

// A component after so many steps inside it: a repeat cut to its first tracks.
fn first_tracks(component: GridTemplateComponent, steps: u64) -> GridTemplateComponent
    ensures { result ≡ cut_after steps component }
{
    if steps < steps_inside(component) {
        return GridTemplateComponent {
            length: steps,
            ..component
        };
    }
    component
}

// The component of a word after so many steps inside it.
pub(crate) fn component_after(word: u64, steps: u64) -> WordComponent
    ensures { result.parts ≡ cut_after steps (component_of word) }
{
    WordComponent {
        parts: first_tracks(GridTemplateComponent::from(word), steps),
    }
}
