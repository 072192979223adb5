// Components and tracks as words of lent tables. Any word gives a component.
ghost use Rattle.std.specs.Prelude.{◌≡◌};
ghost use Rattle.template_rules.specs.Template.{count_of, component_of, count_kind, count_number, component_word, track_at};

use crate::{GridTemplateComponent, RepetitionCount, SizeTables};
use coordinates::word_at;
use sizing::{MinMax, Sizing};

// The most components of a template.
pub const MOST_COMPONENTS: usize = 64;

// How often, from a kind and a number.
fn count_of(kind: u64, number: u64) -> RepetitionCount
    ensures { result ≡ count_of kind number }
{
    match kind {
        0 => RepetitionCount::Single,
        1 => RepetitionCount::Count(number),
        2 => RepetitionCount::AutoFill,
        _ => RepetitionCount::AutoFit,
    }
}

impl From<u64> for GridTemplateComponent {
    ghost from_gives = { λ word component. component ≡ component_of word };

    // A component from its word. A single has one track, whatever its length field holds.
    #[tactic(auto, unfolding(crate::specs::Template::component_of))]
    fn from(word: u64) -> GridTemplateComponent {
        let kind = word / 0x1_0000 % 4;
        let count = count_of(kind, word % 0x1_0000);
        let first = word / 0x1_0000_0000 % 0x1_0000;
        let length = if kind == 0 {
            1
        } else {
            word / 0x1_0000_0000_0000
        };
        GridTemplateComponent {
            count,
            first,
            length,
        }
    }
}

// The kind and the number of a count in the word of its component.
fn count_numbers(count: RepetitionCount) -> (u64, u64)
    ensures { result ≡ (count_kind count, count_number count) }
{
    match count {
        RepetitionCount::Single => (0, 0),
        RepetitionCount::Count(number) => (1, number),
        RepetitionCount::AutoFill => (2, 0),
        RepetitionCount::AutoFit => (3, 0),
    }
}

impl From<GridTemplateComponent> for u64 {
    ghost from_gives = { λ component word. word ≡ component_word (count_number component.count) (count_kind component.count) component.first component.length };

    // The word of a component.
    #[tactic(auto, unfolding(crate::specs::Template::component_word))]
    fn from(component: GridTemplateComponent) -> u64 {
        let (kind, number) = count_numbers(component.count);
        let number = number % 0x1_0000;
        let first = component.first % 0x1_0000;
        let length = component.length % 0x1_0000;
        number + kind % 4 * 0x1_0000 + first * 0x1_0000_0000 + length * 0x1_0000_0000_0000
    }
}

impl SizeTables<'_> {
    // The track at a place.
    pub fn track_at(self, place: u64) -> MinMax
        ensures { result ≡ track_at self.entry.minimums.now self.entry.maximums.now place }
    {
        let min = Sizing::from(word_at(self.minimums, place as usize));
        let max = Sizing::from(word_at(self.maximums, place as usize));
        MinMax { min, max }
    }
}
