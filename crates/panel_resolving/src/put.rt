// A resolved placement as eight numbers.
ghost use Rattle.std.specs.Prelude.{◌≡◌, ◌+◌, ◌≤◌, length};
ghost use Rattle.std.proofs.lemmas.List.Edits.{sets};
ghost use Rattle.panel_rules.specs.Placing.{answered_placement};
ghost use Rattle.library_numbers.specs.Answers.{placement_numbers};
ghost use Rattle.panel_resolving.specs.Placements.{SmallNumbers, numbers_of};

use coordinates::Fault;
use coordinates::limit::PLACEMENT_NUMBERS;
use library_numbers::PlacementNumbers;
use panel_rules::PlacedLine;

// The eight numbers of an answer.
fn numbers_of(answer: PlacementNumbers) -> [i32; PLACEMENT_NUMBERS]
    requires { SmallNumbers answer }
    ensures { result ≡ numbers_of answer }
{
    [
        answer.number as i32,
        answer.axis as i32,
        answer.startkind as i32,
        answer.startnumber,
        answer.endkind as i32,
        answer.endnumber,
        answer.startheld as i32,
        answer.endheld as i32,
    ]
}

// Writes a resolved placement at a place.
pub(crate) fn put_placement(numbers: &mut [i32], place: usize, answer: Result<PlacedLine, Fault>)
    requires { place + 8 ≤ length numbers.old }
    ensures { numbers.new ≡ sets numbers.old place (numbers_of (placement_numbers (answered_placement answer))) }
{
    let written = numbers_of(PlacementNumbers::from(answer));
    numbers[place..place + PLACEMENT_NUMBERS].copy_from_slice(&written);
}
