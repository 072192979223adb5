// What was replayed.
use std::io;
use std::io::Write;

#[derive(Clone, Copy, Debug, PartialEq, Eq, Default)]
pub struct Counts {
    pub blocks: u64,
    pub calls: u64,
    pub questions: u64,
    pub acts: u64,
    pub rows: u64,
    pub different: u64,
}

impl Counts {
    // One block more.
    pub fn add_block(&mut self, calls: u32, questions: u32) {
        self.blocks = self.blocks.wrapping_add(1);
        self.calls = self.calls.wrapping_add(u64::from(calls));
        self.questions = self.questions.wrapping_add(u64::from(questions));
    }

    // One block of acts more.
    pub fn add_acts(&mut self, acts: u32) {
        self.blocks = self.blocks.wrapping_add(1);
        self.acts = self.acts.wrapping_add(u64::from(acts));
    }

    // So many rows more.
    pub fn add_rows(&mut self, rows: u32) {
        self.rows = self.rows.wrapping_add(u64::from(rows));
    }

    // So many more that differ.
    pub fn add_different(&mut self, different: u64) {
        self.different = self.different.wrapping_add(different);
    }

    pub fn print<W: Write>(&self, out: &mut W) -> io::Result<()> {
        writeln!(out, "blocks\t{}", self.blocks)?;
        writeln!(out, "calls\t{}", self.calls)?;
        writeln!(out, "questions\t{}", self.questions)?;
        writeln!(out, "acts\t{}", self.acts)?;
        writeln!(out, "rows\t{}", self.rows)?;
        writeln!(out, "different\t{}", self.different)
    }
}
