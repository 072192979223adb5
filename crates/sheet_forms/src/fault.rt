// Which of the faults of one line is named.
ghost use Rattle.std.specs.Prelude.{◌≡◌, ◌+◌, Ok, IfOk};
ghost use Rattle.coordinates.specs.Refusals.{number_of, fault_number, refused_by};
ghost use Rattle.sheet_forms.specs.Faults.{rank_of, first_of};
ghost use Rattle.sheet_forms.specs.Answers.{first_named, both_of};

use coordinates::Fault;

// How many faults a line of a sheet can have.
const LINE_FAULTS: u64 = 13;

// The place of a number that no line of a sheet has.
fn after_all(number: u32) -> u64
    ensures { result ≡ number + 13 }
{
    u64::from(number) + LINE_FAULTS
}

// The place of a fault's number in the order in which the faults of one line are looked at: the lowest first, but 12 before 8 and 10 last. A
// number that no line of a sheet has comes after all of these.
#[tactic(auto, unfolding(crate::specs::Faults::rank_of))]
pub fn rank(number: u32) -> u64
    ensures { result ≡ rank_of number }
{
    match Fault::try_from(number) {
        Ok(fault) => rank_of_fault(fault),
        Err(_) => after_all(number),
    }
}

// A fault's place in that order.
#[tactic(auto, unfolding(crate::specs::Faults::rank_of))]
pub fn rank_of_fault(fault: Fault) -> u64
    ensures { result ≡ rank_of (number_of fault) }
{
    match fault {
        Fault::Unread => 0,
        Fault::Name => 1,
        Fault::Value => 2,
        Fault::Count => 3,
        Fault::Area => 4,
        Fault::Twice => 5,
        Fault::Late => 6,
        Fault::Overlap => 7,
        Fault::Crowded => 8,
        Fault::ZeroLine => 9,
        Fault::Unequal => 10,
        Fault::Broken => 11,
        Fault::Short => 12,
        Fault::Indefinite | Fault::Unplaced | Fault::HistoryFull | Fault::NoStep => {
            after_all(u32::from(fault))
        }
    }
}

// The first of two faults.
fn first(a: Fault, b: Fault) -> Fault
    ensures { result ≡ first_named a b }
{
    if rank_of_fault(a) <= rank_of_fault(b) {
        a
    } else {
        b
    }
}

// The first of two faults, where there is any.
#[tactic(auto, unfolding(crate::specs::Faults::first_of), using(crate::proofs::Together::number_first, crate::proofs::Together::fault_number))]
pub fn first_fault(a: Option<Fault>, b: Option<Fault>) -> Option<Fault>
    ensures { fault_number result ≡ first_of (fault_number a) (fault_number b) }
{
    match (a, b) {
        (Some(a), Some(b)) => Some(first(a, b)),
        _ => a.or(b),
    }
}

// Two parts of a line, or the first of their faults.
#[tactic(auto, unfolding(crate::specs::Faults::first_of), using(crate::proofs::Together::number_first, crate::proofs::Together::fault_number))]
pub fn both<A: Copy, B: Copy>(a: Result<A, Fault>, b: Result<B, Fault>) -> Result<(A, B), Fault>
    ensures parts { result ≡ both_of a b }
    ensures fault { refused_by result ≡ first_of (refused_by a) (refused_by b) }
    ensures values { IfOk result (λ p. (a ≡ Ok p.0) × (b ≡ Ok p.1)) }
{
    match (a, b) {
        (Ok(a), Ok(b)) => Ok((a, b)),
        (Err(a), Err(b)) => Err(first(a, b)),
        (Err(a), Ok(_)) => Err(a),
        (Ok(_), Err(b)) => Err(b),
    }
}
