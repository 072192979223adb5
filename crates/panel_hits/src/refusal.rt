// What a list is refused by: the lowest number first.
ghost use Rattle.std.specs.Prelude.{◌≡◌};
ghost use Rattle.coordinates.specs.Refusals.{refused_by};
ghost use Rattle.panel_rules.specs.Calls.{shorter_store};
ghost use Rattle.panel_resolving.specs.Lent.{lent_names};
ghost use Rattle.panel_hits.specs.Lists.{lower_fault, checked_of, store_refusal, line_refusal};

use coordinates::Fault;
use panel_names::LentNames;
use panel_tables::LentPanel;

// The fault with the lower number.
fn lower(a: Fault, b: Fault) -> Fault
    ensures { result ≡ lower_fault a b }
{
    if u32::from(a) < u32::from(b) { a } else { b }
}

// What was found, where a check beside it is passed, or the lower of the two faults.
pub(crate) fn checked<A: Copy>(
    found: Result<A, Fault>,
    check: Result<(), Fault>,
) -> Result<A, Fault>
    ensures { result ≡ checked_of found check }
{
    match (found, check) {
        (Err(a), Err(b)) => Err(lower(a, b)),
        (Ok(_), Err(b)) => Err(b),
        _ => found,
    }
}

// Whether the shorter store is long enough.
pub(crate) fn check_stores(lent: LentPanel) -> Result<(), Fault>
    ensures { refused_by result ≡ store_refusal (shorter_store (lent_names lent.entry)) }
{
    LentNames::from(lent).check_stores()
}

// Whether a given line can be asked for: it is an i16, and not 0.
pub(crate) fn check_line(line: i32) -> Result<(), Fault>
    ensures { refused_by result ≡ line_refusal line }
{
    match i16::try_from(line) {
        Ok(0) => Err(Fault::ZeroLine),
        Ok(_) => Ok(()),
        Err(_) => Err(Fault::Count),
    }
}
