// The entry calls of a block.
ghost use Rattle.std.specs.Prelude.{◌≤◌};

use crate::block::Block;
use crate::expected::Expected;
use crate::input::{axis_of, field, number_of};
use crate::tables::{Entry, StoreLengths, Tables};
use coordinates::Fault;
use panel_tables::Panel;
use text::{LINE_FEED, TAB};

// A panel after calls, and the expected text after their answers.
#[derive(Clone, Copy)]
pub struct Called<'a> {
    pub panel: Panel,
    pub seen: Expected<'a>,
}

// What stands after so many tabs of a line.
fn rest_after(line: &[u8], tabs: usize) -> &[u8]
    requires { tabs ≤ 4 }
{
    line.splitn(tabs + 1, |byte| *byte == TAB)
        .nth(tabs)
        .unwrap_or(&[])
}

// The axis, the line and the name of a call, from a field on.
fn entry_at(line: &[u8], first: usize) -> Entry<'_>
    requires { first ≤ 2 }
{
    Entry {
        axis: axis_of(field(line, first)),
        line: number_of(field(line, first + 1)),
        name: rest_after(line, first + 2),
    }
}

// One call: axis, line and name; the lengths of the lent stores stand first where the block gives lengths.
fn call(line: &[u8], given: bool, panel: Panel, tables: &mut Tables) -> Result<Panel, Fault> {
    if given {
        let lengths = StoreLengths::written(field(line, 0), field(line, 1));
        return tables.enter(panel, Some(lengths), entry_at(line, 2));
    }
    tables.enter(panel, None, entry_at(line, 0))
}

// The answer of a call.
fn seen_call<'a>(expected: Expected<'a>, answer: Result<Panel, Fault>) -> Expected<'a> {
    match answer {
        Ok(_) => expected.part(b"entered\t0\t0\n"),
        Err(fault) => expected.refused(fault, 0),
    }
}

// The calls of a block, each a line.
pub fn seen_calls<'a>(
    expected: Expected<'a>,
    block: Block,
    panel: Panel,
    tables: &mut Tables,
) -> Called<'a> {
    let mut called = Called {
        panel,
        seen: expected,
    };
    let lines = block.calls.text.split(|byte| *byte == LINE_FEED);
    for line in lines.take(block.calls.count as usize) {
        let answer = call(line, block.lengths.is_some(), called.panel, tables);
        called = Called {
            panel: answer.unwrap_or(called.panel),
            seen: seen_call(called.seen, answer),
        };
    }
    called
}
