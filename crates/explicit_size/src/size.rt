// The explicit size of an axis.
ghost use Rattle.std.specs.Prelude.{◌≡◌, ◌≤◌};
ghost use Rattle.coordinates.specs.Refusals.{number_of};
ghost use Rattle.template_rules.specs.Template.{components_of};
ghost use Rattle.template_rules.specs.Explicit.{valid_of, template_size_of, with_areas, inner_in_range, space_in_range, crowded_by, explicit_answer_of, answered_size};

use crate::repeat::{gathered, gathered_repetitions};
use crate::repetitions::MOST_TRACKS;
use coordinates::Fault;
use sizing::range::{number_in_range, sizing_in_range};
use template_rules::component::MOST_COMPONENTS;
use template_rules::gathered::GatheredTemplate;
use template_rules::{ExplicitSize, RepeatSpace, Template, TemplateSize, TemplateSummary};

// Whether a template has no repeat of no tracks or of count 0, and at most one automatic repeat, which stands among fixed tracks only.
pub(crate) fn is_valid(summary: TemplateSummary) -> bool
    ensures { result ≡ valid_of summary }
{
    !summary.empty && (summary.automatic == 0 || (summary.automatic == 1 && summary.fixed))
}

// The repetitions and tracks of a template; none where it is invalid.
#[tactic(auto, unfolding(template_rules::specs::Explicit::template_size_of))]
fn template_size(gathered: GatheredTemplate, space: RepeatSpace) -> TemplateSize
    ensures { result ≡ template_size_of space.inner space.strategy space.gap gathered.summary }
{
    let summary = gathered.summary;
    if !is_valid(summary) {
        return TemplateSize::default();
    }
    let repetitions = gathered_repetitions(gathered, space);
    TemplateSize {
        repetitions,
        tracks: summary.outside + summary.repeated * u64::from(repetitions),
    }
}

// The explicit tracks of a template beside areas; above 10,000 they are refused.
#[tactic(auto, unfolding(template_rules::specs::Explicit::with_areas))]
fn size_with_areas(size: TemplateSize, areas: u32) -> Result<ExplicitSize, Fault>
    ensures { answered_size result ≡ with_areas areas size }
{
    let explicit = size.tracks.max(u64::from(areas));
    if MOST_TRACKS < explicit {
        return Err(Fault::Count);
    }
    Ok(ExplicitSize {
        repetitions: size.repetitions,
        template: size.tracks as u32,
        explicit: explicit as u32,
    })
}

// Whether an inner size is in range, where there is one.
fn inner_in_range(inner: Option<f32>) -> bool
    ensures { result ≡ inner_in_range inner }
{
    inner.is_none_or(|x| number_in_range(x))
}

// Whether the inner size and the gap are in range.
fn space_in_range(space: RepeatSpace) -> bool
    ensures { result ≡ space_in_range space.inner space.gap }
{
    inner_in_range(space.inner) && sizing_in_range(space.gap)
}

// The fault of too many components: 4 where the areas alone pass 10,000 tracks, else 8.
fn crowded_by(areas: u32) -> Fault
    ensures { number_of result ≡ crowded_by areas }
{
    if u64::from(areas) <= MOST_TRACKS {
        Fault::Crowded
    } else {
        Fault::Count
    }
}

// The explicit size of an axis, from the words of its template and the tracks that its areas span. Refuses an inner size or a gap out of
// range by 3, more than 10,000 tracks by 4, and more than 64 components by 8.
#[tactic(auto, unfolding(template_rules::specs::Explicit::explicit_answer_of))]
pub fn compute_explicit_grid_size_in_axis(
    template: Template<'_>,
    space: RepeatSpace,
    areas: u32,
) -> Result<ExplicitSize, Fault>
    ensures { answered_size result ≡ explicit_answer_of space.inner space.strategy space.gap areas (components_of template.entry) }
{
    if !space_in_range(space) {
        return Err(Fault::Value);
    }
    if template.components.len() > MOST_COMPONENTS {
        return Err(crowded_by(areas));
    }
    // without an inner size no percentage is used
    let summary = gathered(template, space.inner.unwrap_or(0.0));
    let size = template_size(summary, space);
    size_with_areas(size, areas)
}
