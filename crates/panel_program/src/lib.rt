// The panel program: reads a panel sheet from standard input, places its cells, and prints what it says, or why it is refused.

#![tactic(auto)]

ghost use Rattle.std.specs.Prelude.{◌≡◌, ◌<◌, ◌≤◌, length, take, true, IfSome, OnOk};
ghost use Rattle.std.specs.Io.KnownBytes.{Consumes, IsAtEnd};
ghost use Rattle.panel_answer.specs.Listed.{answered_next};
ghost use Rattle.panel_answer.specs.Walk.{is_end};
ghost use Rattle.panel_program.specs.Printed.{PrintsAnswer};

use axis_tables::layout::AXIS_BYTES;
use cell_placing::MOST_PLACED;
use panel_answer::AnswerLine;
use panel_answer::begin::begin_answer;
use panel_answer::fill::fill;
use panel_tables::LentPanel;
use panel_tables::region::{PANEL_BYTES, PANEL_WORDS};
use sheet_rules::SHEET_BYTES;
use std::io;
use std::io::{Read, Write};

// One byte more than a sheet may have is enough to refuse it.
const SHEET_ROOM: usize = SHEET_BYTES + 1;

// The bytes of the text that are printed at once.
const PART_BYTES: usize = 65536;

// Reads until the buffer is full, the input ends or a read fails: how many bytes stand at its start then, and whether no read failed.
pub fn read_full<R: Read>(input: &mut R, buffer: &mut [u8]) -> (usize, io::Result<()>)
    ensures within { result.0 ≤ length buffer.new }
    ensures taken { Consumes (R.remaining input.old) (R.remaining input.new) (take result.0 buffer.new) }
    ensures whole { OnOk result.1 (result.0 < length buffer.new → IsAtEnd (R.remaining input.new)) }
{
    let mut done: usize = 0;
    while done < buffer.len() {
        match input.read(&mut buffer[done..]) {
            Ok(0) => return (done, Ok(())),
            Ok(count) => done += count,
            Err(failure) => return (done, Err(failure)),
        }
    }
    (done, Ok(()))
}

// Prints the answer to a sheet, part after part of its text: the line that is left then, which is none, and whether no write failed.
fn print_answer<W: Write>(output: &mut W, sheet: &[u8]) -> (Option<AnswerLine>, io::Result<()>)
    ensures ended { is_end (answered_next result.0) ≡ true }
    ensures printed { OnOk result.1 (PrintsAnswer sheet.now (W.contents output.old) (W.contents output.new)) }
{
    let mut words = [0u64; PANEL_WORDS];
    let mut bytes = [0u8; PANEL_BYTES];
    let mut columnstore = [0u8; AXIS_BYTES];
    let mut rowstore = [0u8; AXIS_BYTES];
    let mut lands = [0u64; MOST_PLACED];
    let begun = begin_answer(
        sheet,
        &mut words,
        &mut bytes,
        &mut columnstore,
        &mut rowstore,
        &mut lands,
    );
    let lent = LentPanel {
        words: &words,
        bytes: &bytes,
        columnstore: &columnstore,
        rowstore: &rowstore,
    };
    let mut next = Some(begun.first);
    let mut out = [0u8; PART_BYTES];
    let mut written = Ok(());
    while next.is_some() {
        let filled = fill(&mut out, begun.grid, lent, &lands, next);
        written = written.and(output.write_all(&out[..filled.count]));
        next = filled.next;
    }
    (next, written)
}

// Reads the sheet and prints its answer: whether no line of it is left, and the first failure of a read or a write where there is one.
// Of an input that is longer than a sheet may be, what was read is refused as the whole is.
pub fn answer_input<R: Read, W: Write>(input: &mut R, output: &mut W) -> (bool, io::Result<()>)
    ensures ended { result.0 ≡ true }
    ensures answered { OnOk result.1 (IfSome (R.remaining input.old) (λ sheet. PrintsAnswer sheet (W.contents output.old) (W.contents output.new))) }
{
    let mut sheet = [0u8; SHEET_ROOM];
    let (length, taken) = read_full(input, &mut sheet);
    let (left, written) = print_answer(output, &sheet[..length]);
    (left.is_none(), taken.and(written))
}
