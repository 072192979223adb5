// The automatic repeat of a template: what decides how often it is written out, and how often that is at an inner size.
ghost use Rattle.std.specs.Prelude.{◌≡◌};
ghost use Rattle.template_rules.specs.Template.{template_of, components_of};
ghost use Rattle.template_rules.specs.Bounds.{Gathered};
ghost use Rattle.template_rules.specs.Explicit.{template_size_of};
ghost use Rattle.explicit_size.specs.Repeat.{gathered_of, repeats_automatically, repetitions_in};
ghost use Rattle.explicit_size.specs.Steps.{spaces_by, most_of, count_by};

use crate::repetitions::automatic_repeat;
use sizing::definite::gap_value;
use template_rules::component::MOST_COMPONENTS;
use template_rules::gathered::GatheredTemplate;
use template_rules::{AutoRepeatStrategy, RepeatSpace, SizeTables, Template};
use template_summary::summary::template_summary;

// As many steps as a template of any words can have: 64 components, each of at most 65,535 tracks.
const EVERY_STEP: u64 = MOST_COMPONENTS as u64 * 0x1_0000;

// What of a template decides how often its automatic repeat is written out, whatever the inner size: the space of the first repetition with
// the tracks outside it and the gaps, that of each further one, and the most repetitions.
#[derive(Clone, Copy, Debug, PartialEq)]
pub struct RepeatSpaces {
    pub first: f32,
    pub further: f32,
    pub most: u32,
}

// What is gathered of a whole template, from its tables: their words hold no more steps than it is given.
fn gathered_of_tables(components: &[u64], sizes: SizeTables<'_>, inner: f32) -> GatheredTemplate
    ensures { result.summary ≡ gathered_of inner (template_of components.now sizes.entry.minimums.now sizes.entry.maximums.now) }
{
    let template = Template { components, sizes };
    template_summary(template, inner, EVERY_STEP)
}

// What is gathered of a whole template.
pub(crate) fn gathered(template: Template<'_>, inner: f32) -> GatheredTemplate
    ensures { result.summary ≡ gathered_of inner (components_of template.entry) }
{
    gathered_of_tables(template.components, template.sizes, inner)
}

// Whether a template by its words counts and has an automatic repeat.
#[tactic(auto, unfolding(crate::specs::Repeat::repeats_automatically))]
pub fn repeats_automatically(template: Template<'_>) -> bool
    ensures { result ≡ repeats_automatically (components_of template.entry) }
{
    automatic_repeat(gathered(template, 0.0)).is_some()
}

// What decides the count, from what is gathered, where an automatic repeat counts.
#[tactic(auto, unfolding(crate::specs::Steps::spaces_by))]
fn spaces_by(gathered: GatheredTemplate, gap: f32) -> Option<RepeatSpaces>
    ensures { result ≡ spaces_by gathered.summary gap }
{
    let repeat = automatic_repeat(gathered)?;
    Some(RepeatSpaces {
        first: repeat.first_repetition_space(gap),
        further: repeat.further_repetition_space(gap),
        most: repeat.held_repetitions(),
    })
}

// What decides the count, percentages taken of an inner size.
pub fn repeat_spaces(template: Template<'_>, inner: f32, gap: f32) -> Option<RepeatSpaces>
    ensures { (result ≡ spaces_by (gathered_of inner (components_of template.entry)) gap) × Gathered 64 (gathered_of inner (components_of template.entry)) }
{
    spaces_by(gathered(template, inner), gap)
}

// The count at an inner size, 0 where no automatic repeat counts.
#[tactic(auto, unfolding(crate::specs::Steps::count_by))]
pub fn repetitions_in(spaces: Option<RepeatSpaces>, strategy: AutoRepeatStrategy, inner: f32) -> u32
    ensures { result ≡ count_by strategy inner spaces }
{
    spaces.map_or(0, |spaces| spaces.count_in(strategy, inner))
}

// The most repetitions.
fn most_repetitions(spaces: Option<RepeatSpaces>) -> u32
    ensures { result ≡ most_of spaces }
{
    spaces.map_or(0, |spaces| spaces.most)
}

// How often the automatic repeat of what is gathered is written out: 0 where no automatic repeat counts, and at most once without an inner size.
pub(crate) fn gathered_repetitions(gathered: GatheredTemplate, space: RepeatSpace) -> u32
    ensures { result ≡ (template_size_of space.inner space.strategy space.gap gathered.summary).repetitions }
{
    match space.inner {
        Some(x) => {
            let spaces = spaces_by(gathered, gap_value(space.gap, x));
            repetitions_in(spaces, space.strategy, x)
        }
        None => most_repetitions(spaces_by(gathered, 0.0)).min(1),
    }
}

// How often the automatic repeat of a template is written out: 0 where the template counts as none, has no automatic repeat or has more than
// 64 components. The tracks that it comes to refuse nothing here.
#[tactic(auto, unfolding(crate::specs::Repeat::repetitions_in))]
pub fn template_repetitions(template: Template<'_>, space: RepeatSpace) -> u32
    ensures { result ≡ repetitions_in space.inner space.strategy space.gap (components_of template.entry) }
{
    gathered_repetitions(gathered(template, space.inner.unwrap_or(0.0)), space)
}
