// Numbers of 32 bits as the 16 bits of a line and of a count.
ghost use Rattle.std.specs.Prelude.{◌≡◌, ◌<◌, true, MatchResult};
ghost use Rattle.coordinates.specs.declared.refusal.Fault.TheVariants.{Count};
ghost use Rattle.library_lines.specs.Numbers.{too_wide};

use coordinates::Fault;

// The line of a number. Refused by 4: a number outside -32,768..32,767.
pub(crate) fn line_number(number: i32) -> Result<i16, Fault>
    ensures { MatchResult result (λ line. line ≡ number) (λ fault. (fault ≡ Count) × (too_wide number ≡ true)) }
{
    i16::try_from(number).map_err(|_| Fault::Count)
}

// The count of a number. Refused by 4: a number above 65,535.
pub(crate) fn count_number(number: u32) -> Result<u16, Fault>
    ensures { MatchResult result (λ count. count ≡ number) (λ fault. (fault ≡ Count) × (65535 < number)) }
{
    u16::try_from(number).map_err(|_| Fault::Count)
}
