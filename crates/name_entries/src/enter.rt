// What a direct entry of a line and a name is refused by.
ghost use Rattle.std.specs.Prelude.{◌≡◌};
ghost use Rattle.coordinates.specs.Refusals.{refused_by};
ghost use Rattle.name_entries.specs.Enter.{entry_refusal};

use crate::name::is_name;
use crate::{LAST_LINE, MOST_ENTRIES};
use coordinates::Fault;
use coordinates::limit::STORE_BYTES;

// Whether an entry can be made. `bytes` is the length of the store, `used` how many of them hold names, `count` how many entries there are.
#[tactic(auto, unfolding(crate::specs::Enter::entry_refusal))]
pub fn check_entry(bytes: usize, count: u32, used: u32, line: u32, name: &[u8]) -> Result<(), Fault>
    ensures { refused_by result ≡ entry_refusal bytes count used line name.now }
{
    if !is_name(name) {
        return Err(Fault::Name);
    }
    if !(1..=LAST_LINE).contains(&line) {
        return Err(Fault::Count);
    }
    if MOST_ENTRIES <= count as usize || STORE_BYTES < used as usize + name.len() {
        return Err(Fault::Crowded);
    }
    if bytes < STORE_BYTES {
        return Err(Fault::Short);
    }
    Ok(())
}
