// The blocks and rows of the lists, one after the other.
use crate::block::Block;
use crate::conversions::different_rows;
use crate::counts::Counts;
use crate::histories::ActedSheet;
use crate::input::{Reader, Word, head_of};
use crate::tables::Tables;
use crate::window::Window;
use std::io;
use std::io::{Read, Write};

// How many that differ are named.
const MOST_NAMED: u64 = 128;

// The first line of a block or of a list of rows that differs.
fn print_different<W: Write>(out: &mut W, line: &[u8]) -> io::Result<()> {
    out.write_all(b"differs\t")?;
    out.write_all(line)?;
    out.write_all(b"\n")
}

// The block after its `case` line: 1 where it differs.
fn replay_block(input: &mut Reader, counts: &mut Counts, tables: &mut Tables) -> u64 {
    let block = Block::read(input);
    counts.add_block(
        block.calls.count,
        block.questions.map_or(0, |questions| questions.count),
    );
    u64::from(!block.is_same(tables))
}

// The sheet with its acts after their `history` line: 1 where it differs.
fn replay_acts(input: &mut Reader, counts: &mut Counts, tables: &mut Tables) -> u64 {
    let acted = ActedSheet::read(input);
    counts.add_acts(acted.acts);
    u64::from(!acted.is_same(tables))
}

// The rows after their `lines` line: how many differ.
fn replay_rows(input: &mut Reader, counts: &mut Counts, number: u32) -> u64 {
    counts.add_rows(number);
    different_rows(input.lines(number))
}

// A block or a list of rows. Its first line is printed where it differs and few differ before it.
fn replay_next<W: Write>(
    out: &mut W,
    input: &mut Reader,
    counts: &mut Counts,
    tables: &mut Tables,
) -> io::Result<()> {
    let line = input.line();
    let head = head_of(line);
    let different = match head.word {
        Word::Lines => replay_rows(input, counts, head.number),
        Word::History => replay_acts(input, counts, tables),
        _ => replay_block(input, counts, tables),
    };
    if different != 0 && counts.different < MOST_NAMED {
        print_different(out, line)?;
    }
    counts.add_different(different);
    Ok(())
}

// The most blocks of standard input.
const MOST_BLOCKS: u32 = 1_000_000;

// All that standard input holds.
pub fn replay_all<R: Read, W: Write>(
    input: &mut R,
    out: &mut W,
    window: &mut Window,
    tables: &mut Tables,
) -> io::Result<Counts> {
    let mut counts = Counts::default();
    for _ in 0..MOST_BLOCKS {
        window.fill(input)?;
        let mut reader = Reader {
            rest: window.rest(),
        };
        if reader.rest.is_empty() {
            break;
        }
        replay_next(out, &mut reader, &mut counts, tables)?;
        let left = reader.rest.len();
        window.keep(left);
    }
    Ok(counts)
}
