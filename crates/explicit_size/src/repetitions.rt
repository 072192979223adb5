// How often the automatic repeat of a template is written out.
ghost use Rattle.std.specs.Prelude.{◌≡◌, ◌+◌, ◌-◌, ◌*◌, ◌≤◌, ◌<◌, min, is_some, Some, IfSome};
ghost use Rattle.template_rules.specs.Space.{whole32};
ghost use Rattle.template_rules.specs.Repetitions.{first_space, further_space, whole_of, held_of};
ghost use Rattle.explicit_size.specs.Steps.{fit_by, count_by};
ghost use Rattle.explicit_size.specs.Repeat.{asks_of};

use crate::repeat::RepeatSpaces;
use crate::size::is_valid;
use template_rules::gathered::GatheredTemplate;
use template_rules::whole::{ceiling_to_u32, floor_to_u32};
use template_rules::{AutoRepeatStrategy, TemplateSummary};

// The most tracks of an axis.
pub(crate) const MOST_TRACKS: u64 = coordinates::line::MOST_TRACKS as u64;

// What is gathered of a template whose automatic repeat has tracks.
#[derive(Clone, Copy, Debug, PartialEq)]
pub(crate) struct AutomaticRepeat {
    pub summary: TemplateSummary,
    // As many as a word can write.
    ghost tracks: { (0 < summary.repeated) × (summary.repeated ≤ 65535) },
}

// The automatic repeat of a template, where the template counts and has one.
pub(crate) fn automatic_repeat(gathered: GatheredTemplate) -> Option<AutomaticRepeat>
    ensures asked { is_some result ≡ asks_of gathered.summary }
    ensures kept { IfSome result (λ r. r.summary ≡ gathered.summary) }
{
    let summary = gathered.summary;
    if is_valid(summary) && summary.automatic == 1 {
        return Some(AutomaticRepeat { summary });
    }
    None
}

// Floor by rule max, ceiling by rule min.
fn whole_by(strategy: AutoRepeatStrategy, x: f32) -> u32
    ensures { result ≡ whole_of strategy x }
{
    match strategy {
        AutoRepeatStrategy::MaxRepetitionsThatDoNotOverflow => floor_to_u32(x),
        AutoRepeatStrategy::MinRepetitionsThatDoOverflow => ceiling_to_u32(x),
    }
}

impl RepeatSpaces {
    // The repetitions that fit an inner size: 1 where the first overflows.
    fn fit_in(self, strategy: AutoRepeatStrategy, inner: f32) -> u32
        ensures { result ≡ fit_by strategy inner self.first self.further }
    {
        if self.first > inner {
            return 1;
        }
        whole_by(strategy, (inner - self.first) / self.further).saturating_add(1)
    }

    // The count at an inner size.
    #[tactic(auto, unfolding(crate::specs::Steps::count_by))]
    pub fn count_in(self, strategy: AutoRepeatStrategy, inner: f32) -> u32
        ensures { result ≡ count_by strategy inner (Some self) }
    {
        self.fit_in(strategy, inner).min(self.most)
    }
}

impl AutomaticRepeat {
    // How many gaps lie between the tracks outside the repeat, held to 10,000, and those of one repetition.
    fn gaps_of_first_repetition(self) -> f32
        ensures { result ≡ whole32 (min self.summary.outside 10000 + self.summary.repeated - 1) }
    {
        let gaps = self.summary.outside.min(MOST_TRACKS) + self.summary.repeated - 1;
        gaps as f32
    }

    // The tracks outside the repeat, one repetition, and the gaps between them.
    pub(crate) fn first_repetition_space(self, gap: f32) -> f32
        ensures { result ≡ first_space self.summary gap }
    {
        let gaps = self.gaps_of_first_repetition();
        self.summary.used + self.summary.once + gaps * gap
    }

    // One more repetition with its gaps.
    pub(crate) fn further_repetition_space(self, gap: f32) -> f32
        ensures { result ≡ further_space self.summary gap }
    {
        self.summary.once + self.summary.repeated as f32 * gap
    }

    // The most repetitions: those that begin within 10,000 tracks, and at least 1; 0 where the tracks before the repeat fill the grid.
    #[tactic(auto, unfolding(template_rules::specs::Repetitions::held_of), using(crate::proofs::Rounded::rounded))]
    pub(crate) fn held_repetitions(self) -> u32
        ensures { result ≡ held_of self.summary.before self.summary.repeated 10000 }
    {
        let before = self.summary.before;
        let repeated = self.summary.repeated;
        if MOST_TRACKS <= before {
            return 0;
        }
        let room = (MOST_TRACKS - before).div_ceil(repeated);
        MOST_TRACKS.min(room).max(1) as u32
    }
}
