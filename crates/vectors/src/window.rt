// Standard input, of which a buffer holds the part that is replayed.
ghost use Rattle.std.specs.Prelude.{◌≤◌};

use panel_program::read_full;
use std::io;
use std::io::Read;

// The most bytes that are held.
const HELD: usize = 131072;

// The most bytes of a block.
const BLOCK: usize = 65536;

// The bytes of the buffer from one place to another are still to be replayed.
#[derive(Drop)]
pub struct Window {
    buffer: [u8; HELD],
    start: usize,
    end: usize,
    ghost in_buffer: { (start ≤ end) × (end ≤ 131072) },
}

impl Window {
    // A window that holds nothing.
    pub fn new() -> Window {
        Window {
            buffer: [0; HELD],
            start: 0,
            end: 0,
        }
    }

    // What is still to be replayed.
    pub fn rest(&self) -> &[u8] {
        &self.buffer[self.start..self.end]
    }

    // All but the last bytes were replayed.
    pub fn keep(&mut self, left: usize) {
        self.start = self.end - left.min(self.end - self.start);
    }

    // Moves what is left to the front, and fills the buffer with what comes next.
    fn refill<R: Read>(&mut self, input: &mut R) -> io::Result<()> {
        let left = self.end - self.start;
        self.buffer.copy_within(self.start..self.end, 0);
        self.start = 0;
        self.end = left;
        let (more, taken) = read_full(input, &mut self.buffer[left..]);
        self.end = left + more;
        taken
    }

    // Sees to it that a whole block is held, or all that is left.
    pub fn fill<R: Read>(&mut self, input: &mut R) -> io::Result<()> {
        if BLOCK <= self.end - self.start {
            return Ok(());
        }
        self.refill(input)
    }
}
