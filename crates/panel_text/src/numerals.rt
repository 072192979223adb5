// Numbers as text in a line.
ghost use Rattle.std.specs.Prelude.{◌≡◌, ◌<◌, ◌≤◌};
ghost use Rattle.text.specs.Decimal.{decimal};
ghost use Rattle.panel_text.specs.Numerals.{whole_number, hexadecimal_digits, hexadecimal};
ghost use Rattle.panel_text.specs.Numerals.{digit as Numerals·digit};
ghost use Rattle.panel_text.specs.Written.{Adds};

use crate::line::PrintedLine;
use text::Decimal;

// The byte of a hexadecimal digit.
fn digit(number: u32) -> u8
    requires { number < 16 }
    ensures { result ≡ Numerals·digit number }
{
    if number < 10 {
        b'0' + number as u8
    } else {
        b'a' + (number as u8 - 10)
    }
}

impl PrintedLine {
    // Decimal digits, the highest first.
    pub(crate) fn decimal(&mut self, number: u32)
        ensures { Adds self.old (decimal number) self.new 10 }
    {
        self.word(Decimal::new(u64::from(number)).as_bytes());
    }

    // The last digits of a number in hexadecimal, the highest first.
    fn hexadecimal_digits(&mut self, count: u32, number: u32)
        requires { count ≤ 8 }
        ensures { Adds self.old (hexadecimal_digits count number) self.new count }
    {
        if count == 0 {
            return;
        }
        self.hexadecimal_digits(count - 1, number / 16);
        self.byte(digit(number % 16));
    }

    // The eight hexadecimal digits of 32 bits.
    pub(crate) fn hexadecimal(&mut self, bits: u32)
        ensures { Adds self.old (hexadecimal bits) self.new 8 }
    {
        self.hexadecimal_digits(8, bits);
    }

    // A whole number, `-` before a negative one.
    pub(crate) fn whole_number(&mut self, number: i16)
        ensures { Adds self.old (whole_number number) self.new 11 }
    {
        match number {
            0.. => self.decimal(number as u32),
            _ => {
                self.byte(b'-');
                self.decimal(u32::from(number.unsigned_abs()));
            }
        }
    }
}
