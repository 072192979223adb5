// An expected text that is compared part by part.
use coordinates::{Axis, Fault};
use panel_text::LINE_BYTES;
use sheet_rules::Overlap;
use std::fmt;
use std::fmt::{Display, Write};

// What is left of an expected text after the parts that it went on with; none once it went on otherwise.
#[derive(Clone, Copy, Debug, PartialEq, Eq)]
pub struct Expected<'a> {
    rest: Option<&'a [u8]>,
}

impl<'a> Write for Expected<'a> {
    // The text goes on with a part.
    fn write_str(&mut self, part: &str) -> fmt::Result {
        *self = self.part(part.as_bytes());
        Ok(())
    }
}

impl<'a> Expected<'a> {
    // A text of which nothing was compared.
    pub fn new(text: &'a [u8]) -> Expected<'a> {
        Expected { rest: Some(text) }
    }

    // Whether the text was seen to its end.
    pub fn is_over(self) -> bool {
        self.rest.is_some_and(|rest| rest.is_empty())
    }

    // The text goes on with a part.
    pub fn part(self, part: &[u8]) -> Expected<'a> {
        Expected {
            rest: self
                .rest
                .filter(|rest| rest.starts_with(part))
                .and_then(|rest| rest.get(part.len()..)),
        }
    }

    // A number in decimal.
    pub fn number<N: Display + Drop>(self, number: N) -> Expected<'a> {
        let mut seen = self;
        match write!(seen, "{number}") {
            Ok(()) => seen,
            Err(_) => Expected { rest: None },
        }
    }

    // The letter of an axis.
    pub fn axis(self, axis: Axis) -> Expected<'a> {
        match axis {
            Axis::Column => self.part(b"c"),
            Axis::Row => self.part(b"r"),
        }
    }

    // The line of a refusal: its fault, and the line of the sheet that has it, 0 for none.
    pub fn refused(self, fault: Fault, line: u32) -> Expected<'a> {
        let mut text = [0u8; LINE_BYTES];
        let count = panel_text::refused_line(&mut text, u32::from(fault), line);
        self.part(&text[..count])
    }

    // The line of two areas that share a cell, where there are any.
    pub fn overlap(self, overlap: Option<Overlap>) -> Expected<'a> {
        let Some(pair) = overlap else {
            return self;
        };
        self.part(b"pair\t")
            .number(pair.earlier)
            .part(b"\t")
            .number(pair.later)
            .part(b"\n")
    }
}
