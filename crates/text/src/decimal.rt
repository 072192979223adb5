// Numbers as their decimal digits.
ghost use Rattle.std.specs.Prelude.{◌≡◌, ◌≤◌, ℕ, List, drop};
ghost use Rattle.text.specs.Decimal.{decimal};

use std::marker::Model;

// The most digits of a number.
const MOST_DIGITS: usize = 20;

// The decimal digits of a number, the highest first, at the end of their array.
#[derive(Drop)]
pub struct Decimal {
    bytes: [u8; MOST_DIGITS],
    start: usize,
}

impl Model for Decimal {
    ghost Value = { List ℕ };

    ghost view = { λ digits. drop digits.start digits.bytes };

    ghost invariant = { λ digits. digits.start ≤ 20 };
}

impl Decimal {
    // The digits of a number.
    #[tactic(auto, using(crate::proofs::Digits::decimal_same))]
    pub fn new(number: u64) -> Decimal
        ensures { result ≡ decimal number }
    {
        let mut bytes = [0; MOST_DIGITS];
        let start = itoa::write_digits(number, &mut bytes, MOST_DIGITS);
        Decimal { bytes, start }
    }

    // The digits as bytes.
    pub fn as_bytes(&self) -> &[u8]
        ensures { result.now ≡ self.now }
    {
        &self.bytes[self.start..]
    }
}
