// The text of the lists: lines, their first words, and parts that are as long as a number says.

use coordinates::Axis;
use text::{LINE_FEED, TAB};

// The first word of a line, where it decides what follows.
#[derive(Clone, Copy, Debug, PartialEq, Eq)]
pub enum Word {
    Stores,
    Display,
    Ask,
    Cut,
    Lines,
    History,
    Other,
}

// The word and the number that a line starts with.
#[derive(Clone, Copy, Debug, PartialEq, Eq)]
pub struct Head {
    pub word: Word,
    pub number: u32,
}

// So many lines at the start of a text.
#[derive(Clone, Copy, Debug, PartialEq, Eq)]
pub struct Lines<'a> {
    pub count: u32,
    pub text: &'a [u8],
}

// The text that is still to be read.
#[derive(Clone, Copy, Debug, PartialEq, Eq)]
pub struct Reader<'a> {
    pub rest: &'a [u8],
}

// Field k of a line.
pub fn field(line: &[u8], k: usize) -> &[u8] {
    text::part(line, TAB, k)
}

// The number that a field writes, 0 where it writes none.
pub fn number_of(field: &[u8]) -> u32 {
    text::read_count(field, 0, u32::MAX).unwrap_or(0)
}

// The bits that a field writes, all ones where it writes none.
pub fn bits_of(field: &[u8]) -> u32 {
    text::read_bits(field).unwrap_or(u32::MAX)
}

// The whole number that a field writes, 0 where it writes none.
pub fn whole_of(field: &[u8]) -> i16 {
    text::read_index(field).unwrap_or(0)
}

// The grid line that a field writes.
pub fn line_of(field: &[u8]) -> i32 {
    whole_of(field).into()
}

// The axis that a field writes.
pub fn axis_of(field: &[u8]) -> Axis {
    match field {
        b"c" => Axis::Column,
        _ => Axis::Row,
    }
}

// A first word.
fn word_of(word: &[u8]) -> Word {
    match word {
        b"stores" => Word::Stores,
        b"display" => Word::Display,
        b"ask" => Word::Ask,
        b"cut" => Word::Cut,
        b"lines" => Word::Lines,
        b"history" => Word::History,
        _ => Word::Other,
    }
}

// The word and the number that a line starts with.
pub fn head_of(line: &[u8]) -> Head {
    Head {
        word: word_of(text::part(line, b' ', 0)),
        number: number_of(text::part(line, b' ', 1)),
    }
}

impl<'a> Reader<'a> {
    // So many bytes, or all that are left.
    pub fn bytes(&mut self, count: usize) -> &'a [u8] {
        let (part, rest) = self.rest.split_at(count.min(self.rest.len()));
        self.rest = rest;
        part
    }

    // The next line, without its line feed.
    pub fn line(&mut self) -> &'a [u8] {
        let line = text::part(self.rest, LINE_FEED, 0);
        self.bytes(line.len() + 1);
        line
    }

    // What the next line starts with.
    pub fn head(&mut self) -> Head {
        head_of(self.line())
    }

    // The next lines.
    pub fn lines(&mut self, count: u32) -> Lines<'a> {
        let text = self.rest;
        for _ in 0..count {
            self.line();
        }
        Lines { count, text }
    }
    // The lines after the next, as many as that says.
    pub fn counted(&mut self) -> Lines<'a> {
        let head = self.head();
        self.lines(head.number)
    }
}
