// The search: sizes in the order of their distance from the size now, the wider one first.
ghost use Rattle.std.specs.Prelude.{◌≡◌};
ghost use Rattle.template_rules.specs.Template.{components_of};
ghost use Rattle.template_rules.specs.Bounds.{Gathered};
ghost use Rattle.sizing.specs.Words.{zero32};
ghost use Rattle.explicit_size.specs.Repeat.{gathered_of};
ghost use Rattle.least_resize.specs.Search.{repetitions_at, at_distance, least_resize};
ghost use Rattle.least_resize.specs.Steps.{repeat_of, count_in, differs_in};

use crate::percentage::has_percentage;
use explicit_size::repeat::{RepeatSpaces, repeat_spaces, repetitions_in, template_repetitions};
use sizing::Sizing;
use template_rules::{AutoRepeatStrategy, RepeatSpace, SizeTables, Template};

// An automatic repeat whose count is asked for at many sizes: which repetitions, the gap, whether its template has percentages, and what
// decides the count, the same at every size where it has none; nothing where no automatic repeat counts.
#[derive(Clone, Copy, Debug, PartialEq)]
pub struct SizedRepeat {
    pub strategy: AutoRepeatStrategy,
    pub gap: f32,
    pub percentages: bool,
    pub spaces: Option<RepeatSpaces>,
}

// The repeat of a template.
fn repeat_of(template: Template<'_>, strategy: AutoRepeatStrategy, gap: f32) -> SizedRepeat
    ensures { (result ≡ repeat_of template.entry.components.now template.entry.sizes.minimums.now template.entry.sizes.maximums.now strategy gap) × Gathered 64 (gathered_of zero32 (components_of template.entry)) }
{
    let spaces = repeat_spaces(template, 0.0, gap);
    let SizeTables { minimums, maximums } = template.sizes;
    let percentages = has_percentage(minimums) || has_percentage(maximums);
    SizedRepeat {
        strategy,
        gap,
        percentages,
        spaces,
    }
}

// A repeat with its template.
#[derive(Clone, Copy)]
struct Search<'a> {
    template: Template<'a>,
    repeat: SizedRepeat,
}

impl Search<'_> {
    // The count at a size: the template is walked anew only where percentages stand in it.
    #[inline(always)]
    #[tactic(auto, unfolding(crate::specs::Steps::count_in))]
    fn count_at(self, size: u16) -> u32
        ensures { result ≡ count_in self.entry.repeat (components_of self.entry.template) size }
    {
        let SizedRepeat {
            strategy,
            gap,
            percentages,
            spaces,
        } = self.repeat;
        let inner = size as f32;
        if percentages {
            let space = RepeatSpace {
                inner: Some(inner),
                strategy,
                gap: Sizing::Length(gap),
            };
            return template_repetitions(self.template, space);
        }
        repetitions_in(spaces, strategy, inner)
    }

    // Whether the count at a size is another than the one now.
    #[inline(always)]
    #[tactic(auto, unfolding(crate::specs::Steps::differs_in))]
    fn differs_at(self, count: u32, size: u16) -> bool
        ensures { result ≡ differs_in self.entry.repeat (components_of self.entry.template) count size }
    {
        self.count_at(size) != count
    }

    // At a distance: the wider size where the count differs there, else the narrower one.
    #[tactic(auto, unfolding(crate::specs::Search::at_distance, crate::specs::Steps::differs_in))]
    fn nearest_at(self, count: u32, size: u16, distance: u16) -> Option<u16>
        ensures { result ≡ at_distance (differs_in self.entry.repeat (components_of self.entry.template) count) size distance }
    {
        if let Some(wider) = size.checked_add(distance) {
            if self.differs_at(count, wider) {
                return Some(wider);
            }
        }
        let narrower = size.checked_sub(distance)?;
        self.differs_at(count, narrower).then_some(narrower)
    }
}

// The nearest size at which the automatic repeat of a template is written out another number of times than at the size now.
pub fn least_resize(
    template: Template<'_>,
    strategy: AutoRepeatStrategy,
    gap: f32,
    size: u16,
) -> Option<u32>
    ensures { result ≡ least_resize (repetitions_at strategy gap (components_of template.entry)) size }
{
    let repeat = repeat_of(template, strategy, gap);
    let search = Search { template, repeat };
    let count = search.count_at(size);
    (1..=u16::MAX)
        .find_map(|distance| search.nearest_at(count, size, distance))
        .map(u32::from)
}
