// Percentages among the sizes of a template.
ghost use Rattle.std.specs.Prelude.{◌≡◌, eqb};
ghost use Rattle.sizing.specs.Words.{sizing_of, kind_of};
ghost use Rattle.least_resize.specs.Percentages.{has_percentage};

use sizing::Sizing;

// Whether the size of a word is a percentage.
fn is_percentage(word: u64) -> bool
    ensures { result ≡ eqb (kind_of (sizing_of word)) 1 }
{
    matches!(Sizing::from(word), Sizing::Percent(_))
}

// Whether one of these sizes, minimums or maximums, is a percentage.
#[tactic(auto, unfolding(crate::specs::Percentages::has_percentage))]
pub fn has_percentage(sizes: &[u64]) -> bool
    ensures { result ≡ has_percentage sizes.now }
{
    sizes.iter().any(|word| is_percentage(*word))
}
