// Eight lower-case hexadecimal digits.
ghost use Rattle.std.specs.Prelude.{◌≡◌};
ghost use Rattle.text.specs.Hexadecimal.{bits_of};
ghost use Rattle.text.specs.Steps.{hex_digit};

// A digit's number.
fn digit(b: u8) -> Option<u32>
    ensures { result ≡ hex_digit b }
{
    match b {
        b'0'..=b'9' => Some(u32::from(b - b'0')),
        b'a'..=b'f' => Some(u32::from(b - b'a') + 10),
        _ => None,
    }
}

// The bits that eight digits write.
pub fn read_bits(s: &[u8]) -> Option<u32>
    ensures { result ≡ bits_of s.now }
{
    if s.len() != 8 {
        return None;
    }
    let mut bits = 0;
    for b in s {
        bits = bits * 16 + digit(*b)?;
    }
    Some(bits)
}
