// Whole numbers. Digits are held at 2^32, which is above every range, so that a number may be as long as it likes.
ghost use Rattle.std.specs.Prelude.{◌≡◌, ◌+◌, ◌-◌, ◌*◌, ◌≤◌, min};
ghost use Rattle.text.specs.Whole.{digits_of, natural_of, whole_of, count_in, index_in};
ghost use Rattle.text.specs.Steps.{top, held, held_whole, within};

use crate::NumberFault;

// What digits are held at.
const TOP: u64 = 4294967296;

// One digit more.
fn hold(v: u64, b: u8) -> u64
    requires { (v ≤ top) × (48 ≤ b) }
    ensures { result ≡ min top (v * 10 + (b - 48)) }
{
    (v * 10 + u64::from(b - b'0')).min(TOP)
}

// The number that decimal digits write.
fn read_digits(s: &[u8]) -> Option<u64>
    ensures { result ≡ held (digits_of 0 s.now) }
{
    let mut v = 0;
    for b in s {
        if !b.is_ascii_digit() {
            return None;
        }
        v = hold(v, *b);
    }
    Some(v)
}

// At least one digit, and 0 first only by itself.
#[tactic(auto, using(crate::proofs::Held::naturals))]
fn natural(s: &[u8]) -> Option<u64>
    ensures { result ≡ held (natural_of s.now) }
{
    match s {
        [] | [b'0', _, ..] => None,
        _ => read_digits(s),
    }
}

// The whole number that a field writes. There is no -0.
fn read_whole(s: &[u8]) -> Option<i64>
    ensures { result ≡ held_whole (whole_of s.now) }
{
    match s {
        [b'-', digits @ ..] => match natural(digits)? {
            0 => None,
            n => Some(-(n as i64)),
        },
        _ => Some(natural(s)? as i64),
    }
}

// A whole number in a range.
fn read_within(s: &[u8], least: i64, most: i64) -> Result<i64, NumberFault>
    ensures { result ≡ within least most (held_whole (whole_of s.now)) }
{
    match read_whole(s) {
        None => Err(NumberFault::Unread),
        Some(n) if (least..=most).contains(&n) => Ok(n),
        Some(_) => Err(NumberFault::Outside),
    }
}

// A whole number from least to most.
pub fn read_count(s: &[u8], least: u32, most: u32) -> Result<u32, NumberFault>
    ensures { result ≡ count_in least most (whole_of s.now) }
{
    Ok(read_within(s, i64::from(least), i64::from(most))? as u32)
}

// A whole number from -32,768 to 32,767.
pub fn read_index(s: &[u8]) -> Result<i16, NumberFault>
    ensures { result ≡ index_in (whole_of s.now) }
{
    Ok(read_within(s, i64::from(i16::MIN), i64::from(i16::MAX))? as i16)
}
