// What one walk over a template gathers: its validity, its counts and its sums of f32, in template order.
ghost use Rattle.std.specs.Prelude.{◌≡◌, cond, ◌≤◌, eqb, leb, length};
ghost use Rattle.template_rules.specs.Template.{with_tracks, components_of};
ghost use Rattle.template_rules.specs.Summary.{meaning_of, no_components, first_part};
ghost use Rattle.template_rules.specs.Steps.{outside_step, automatic_step, step_by, summary_step};

use crate::component::{WordComponent, component_after, steps_inside};
use crate::tracks::component_totals;
use template_rules::component::MOST_COMPONENTS;
use template_rules::gathered::GatheredTemplate;
use template_rules::{RepetitionCount, Template, TemplateSummary, TrackTotals};

// How many of these tracks lie before the automatic repeat: none once there is one.
fn tracks_before(automatic: u64, tracks: u64) -> u64
    ensures { result ≡ cond (eqb automatic 0) tracks 0 }
{
    if automatic == 0 { tracks } else { 0 }
}

// The step for a component outside the automatic repeat.
fn add_outside(
    summary: TemplateSummary,
    empty: bool,
    tracks: u64,
    totals: TrackTotals,
) -> TemplateSummary
    requires { (summary.outside ≤ 1099511627776) × (summary.before ≤ 1099511627776) × (tracks ≤ 4294967296) }
    ensures { result ≡ outside_step summary empty totals.fixed tracks totals.space }
{
    TemplateSummary {
        empty: summary.empty || empty,
        fixed: summary.fixed && totals.fixed,
        outside: summary.outside + tracks,
        before: summary.before + tracks_before(summary.automatic, tracks),
        used: summary.used + totals.space,
        ..summary
    }
}

// The step for an automatic repeat: the first one counts.
fn add_automatic(summary: TemplateSummary, tracks: u64, totals: TrackTotals) -> TemplateSummary
    requires { summary.automatic ≤ 64 }
    ensures { result ≡ automatic_step summary tracks totals }
{
    let summary = TemplateSummary {
        empty: summary.empty || tracks == 0,
        fixed: summary.fixed && totals.fixed,
        automatic: summary.automatic + 1,
        used: summary.used + 0.0,
        ..summary
    };
    if summary.automatic > 1 {
        return summary;
    }
    TemplateSummary {
        repeated: tracks,
        once: totals.space,
        ..summary
    }
}

// The step for a component whose tracks are measured.
fn add_totals(
    gathered: GatheredTemplate,
    component: WordComponent,
    totals: TrackTotals,
) -> TemplateSummary
    ensures { result ≡ step_by gathered.summary component.parts.count component.parts.length totals }
{
    let summary = gathered.summary;
    let length = component.parts.length;
    match component.parts.count {
        RepetitionCount::Single => add_outside(summary, false, 1, totals),
        RepetitionCount::Count(times) => {
            let factor = times as f32;
            let space = totals.space * factor;
            let empty = length == 0 || times == 0;
            let totals = TrackTotals { space, ..totals };
            add_outside(summary, empty, times * length, totals)
        }
        RepetitionCount::AutoFill | RepetitionCount::AutoFit => {
            add_automatic(summary, length, totals)
        }
    }
}

// The step for a component.
fn add_component(
    gathered: GatheredTemplate,
    component: WordComponent,
    template: Template<'_>,
    inner: f32,
) -> TemplateSummary
    ensures { result ≡ summary_step inner gathered.summary (with_tracks template.entry.sizes.minimums.now template.entry.sizes.maximums.now component.parts) }
{
    let totals = component_totals(template, component, inner);
    add_totals(gathered, component, totals)
}

// The one walk over a template, for so many steps: one for each component, and one for each track in a repeat. It may end inside a
// repeat, whose tracks so far then count. Of more than 64 components none is walked.
pub fn template_summary(template: Template<'_>, inner: f32, steps: u64) -> GatheredTemplate
    ensures { result.summary ≡ cond (leb (length template.entry.components.now) 64) (meaning_of inner (first_part steps (components_of template.entry))) no_components }
{
    let mut summary = TemplateSummary {
        empty: false,
        fixed: true,
        automatic: 0,
        outside: 0,
        before: 0,
        repeated: 0,
        used: 0.0,
        once: 0.0,
    };
    if template.components.len() > MOST_COMPONENTS {
        return GatheredTemplate { summary };
    }
    let mut left = steps;
    for word in template.components {
        if left == 0 {
            return GatheredTemplate { summary };
        }
        let component = component_after(*word, left - 1);
        summary = add_component(GatheredTemplate { summary }, component, template, inner);
        left = left - 1 - steps_inside(component.parts);
    }
    GatheredTemplate { summary }
}
