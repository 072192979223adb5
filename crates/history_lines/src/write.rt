// A line that is written.
ghost use Rattle.std.specs.Prelude.{◌≡◌, ◌+◌, ◌≤◌, length};
ghost use Rattle.history_lines.specs.Lines.{history_line};
ghost use Rattle.history_lines.specs.Written.{place_after, bytes_after};

use text::{Decimal, LINE_FEED, TAB};

// Bytes that take the place of as many others. A loop, since the library's `copy_from_slice` asks a program in C for `memmove`.
fn copy_over(bytes: &mut [u8], text: &[u8])
    requires { length bytes.old ≡ length text.now }
    ensures { bytes.new ≡ text.now }
{
    for place in 0..text.len() {
        bytes[place] = text[place];
    }
}

// A line that is written: a step's number and its text.
#[derive(Clone, Copy)]
pub struct StepLine<'a> {
    pub number: u64,
    pub text: &'a [u8],
}

impl StepLine<'_> {
    // How many bytes the line takes.
    #[tactic(auto, using(crate::proofs::Steps::length_line))]
    pub fn len(self) -> usize
        ensures { result ≡ length (history_line self.entry.number self.entry.text.now) }
    {
        Decimal::new(self.number).as_bytes().len() + 2 + self.text.len()
    }

    // Bytes that the line fills.
    #[tactic(auto, using(crate::proofs::Steps::length_line, crate::proofs::Steps::line_filled))]
    fn fill(self, line: &mut [u8])
        requires { length line.old ≡ length (history_line self.number self.text.now) }
        ensures { line.new ≡ history_line self.entry.number self.entry.text.now }
    {
        let digits = Decimal::new(self.number);
        let tab = digits.as_bytes().len();
        let end = line.len() - 1;
        copy_over(&mut line[..tab], digits.as_bytes());
        line[tab] = TAB;
        copy_over(&mut line[tab + 1..end], self.text);
        line[end] = LINE_FEED;
    }

    // The line from a place on, and the place after it; where it does not fit, nothing is written.
    #[tactic(auto, using(crate::proofs::Steps::written_bytes))]
    pub fn write(self, bytes: &mut [u8], place: usize) -> Option<usize>
        ensures answer { result ≡ place_after bytes.old place (history_line self.entry.number self.entry.text.now) }
        ensures bytes { bytes.new ≡ bytes_after bytes.old place (history_line self.entry.number self.entry.text.now) }
    {
        let end = place.checked_add(self.len())?;
        if bytes.len() < end {
            return None;
        }
        self.fill(&mut bytes[place..end]);
        Some(end)
    }
}
