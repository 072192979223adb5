// A text cut at a separator byte: lines at a line feed (10), fields at a tab (9). Numbers as a sheet writes them: whole numbers
// in decimal digits, sizes as the hexadecimal digits of their bits.

#![tactic(auto)]

ghost use Rattle.std.specs.Prelude.{◌≡◌};
ghost use Rattle.text.specs.Faults.{fault_of_number};

pub mod decimal;
pub mod fields;
pub mod hexadecimal;
pub mod split;
pub mod whole;
pub mod words;

use coordinates::Fault;
pub use decimal::Decimal;
pub use fields::{Place, cut_parts, field, field_place, part_at};
pub use hexadecimal::read_bits;
pub use split::{LINE_FEED, TAB, find, part, part_end};
pub use whole::{read_count, read_index};
pub use words::find_part;

// Why a field is no whole number of a range: it is not spelt as one, or lies outside.
#[derive(Clone, Copy, Debug, PartialEq, Eq)]
pub enum NumberFault {
    Unread,
    Outside,
}

impl From<NumberFault> for Fault {
    ghost from_gives = { λ number fault. fault ≡ fault_of_number number };

    // The fault of a number that is not spelt as one, or lies outside its range.
    fn from(number: NumberFault) -> Fault {
        match number {
            NumberFault::Unread => Fault::Unread,
            NumberFault::Outside => Fault::Count,
        }
    }
}
