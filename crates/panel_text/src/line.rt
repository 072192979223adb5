// A line as it is written: texts one after the other.
ghost use Rattle.std.specs.Prelude.{◌≡◌, ◌≤◌, ℕ, List, [], ◌∷◌, length, take};
ghost use Rattle.std.proofs.lemmas.List.Edits.{sets};
ghost use Rattle.panel_text.specs.Written.{Adds, AddsField};

use crate::LINE_BYTES;
use std::marker::Model;

// A line as far as it is written: its bytes, and how many there are. What would be past the most bytes of a line is left out.
#[derive(Drop)]
pub(crate) struct PrintedLine {
    bytes: [u8; LINE_BYTES],
    count: usize,
}

impl Model for PrintedLine {
    ghost Value = { List ℕ };

    ghost view = { λ line. take line.count line.bytes };

    ghost invariant = { λ line. line.count ≤ 128 };
}

impl PrintedLine {
    // A line of which nothing is written.
    pub(crate) fn new() -> PrintedLine
        ensures { result ≡ [] }
    {
        PrintedLine {
            bytes: [0; LINE_BYTES],
            count: 0,
        }
    }

    // One byte.
    pub(crate) fn byte(&mut self, byte: u8)
        ensures { Adds self.old (byte ∷ []) self.new 1 }
    {
        if LINE_BYTES <= self.count {
            return;
        }
        self.bytes[self.count] = byte;
        self.count += 1;
    }

    // The bytes of a word.
    pub(crate) fn word(&mut self, word: &[u8])
        ensures { Adds self.old word.now self.new (length word.now) }
    {
        for byte in word {
            self.byte(*byte);
        }
    }

    // A word, and the byte that ends it.
    pub(crate) fn field(&mut self, word: &[u8], end: u8)
        requires { length word.now ≤ 8 }
        ensures { AddsField self.old word.now end self.new }
    {
        self.word(word);
        self.byte(end);
    }

    // Writes the line at the start of lent bytes, cut where these end, and answers its length.
    pub(crate) fn put(&self, out: &mut [u8]) -> usize
        ensures bytes { out.new ≡ sets out.old 0 self.now }
        ensures whole { result ≡ length self.now }
    {
        let most = self.count.min(out.len());
        out[..most].copy_from_slice(&self.bytes[..most]);
        self.count
    }
}
