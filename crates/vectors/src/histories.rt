// A sheet with acts on its panel and its history, beside the expected text: of each call `step`, the step and the last one, or its refusal; the
// whole answer of the panel; and the bytes of the history.
use crate::block::seen_fault;
use crate::expected::Expected;
use crate::input::{Reader, axis_of, head_of, number_of};
use crate::panel::seen_panel;
use crate::tables::{StoreLengths, Tables, lent};
use panel_edits::Entry;
use panel_history::{Edited, History, edit, edit_name, recall};
use panel_tables::Panel;
use sheet_rules::SheetFault;

// The most bytes of a history.
const MOST_BYTES: usize = 16384;

// What they hold before any edit.
const UNWRITTEN: u8 = b'Z';

// The parts of a block: how many bytes of history are lent, the sheet, how many acts there are, their text, and the expected text.
#[derive(Clone, Copy)]
pub struct ActedSheet<'a> {
    bytes: u32,
    sheet: &'a [u8],
    pub acts: u32,
    text: &'a [u8],
    expected: &'a [u8],
}

// An edit by its line or by a name, a step to recall; how many bytes of both stores are lent from then on, steps and bytes that no call wrote;
// the whole answer, where it is cut without records, and the bytes of the history.
#[derive(Clone, Copy)]
enum Act<'a> {
    Edit(&'a [u8]),
    Enter(Entry<'a>),
    Recall(u32),
    Lend(StoreLengths),
    Steps(History),
    Put(u32, &'a [u8]),
    Show(bool),
    Lines,
}

// A panel and its step, how many bytes of both stores are lent, and what is left of the expected text.
#[derive(Clone, Copy)]
struct Session<'a> {
    panel: Panel,
    history: History,
    stores: Option<StoreLengths>,
    seen: Expected<'a>,
}

// An entry: how many bytes its name has, its axis and its line, and then the name.
fn entry<'a>(input: &mut Reader<'a>, line: &[u8], bytes: u32) -> Entry<'a> {
    Entry {
        axis: axis_of(text::part(line, b' ', 2)),
        line: number_of(text::part(line, b' ', 3)),
        name: input.bytes(bytes as usize),
    }
}

// The act that comes next.
fn read_act<'a>(input: &mut Reader<'a>) -> Act<'a> {
    let line = input.line();
    let first = text::part(line, b' ', 1);
    let second = text::part(line, b' ', 2);
    let number = number_of(first);
    match text::part(line, b' ', 0) {
        b"edit" => Act::Edit(input.bytes(number as usize)),
        b"enter" => Act::Enter(entry(input, line, number)),
        b"recall" => Act::Recall(number),
        b"lend" => Act::Lend(StoreLengths::written(first, second)),
        b"steps" => Act::Steps(History {
            step: number.into(),
            last: number_of(second).into(),
        }),
        b"put" => Act::Put(number_of(second), input.bytes(number as usize)),
        b"lines" => Act::Lines,
        b"cut" => Act::Show(true),
        _ => Act::Show(false),
    }
}

// The panel and the step after a call, and its answer.
fn called<'a>(session: Session<'a>, answer: Result<Edited, SheetFault>) -> Session<'a> {
    match answer {
        Ok(edited) => {
            let step = session.seen.part(b"step\t").number(edited.history.step);
            Session {
                panel: edited.panel,
                history: edited.history,
                seen: step.part(b"\t").number(edited.history.last).part(b"\n"),
                ..session
            }
        }
        Err(fault) => Session {
            seen: seen_fault(session.seen, fault),
            ..session
        },
    }
}

// A call with the tables.
fn call<'a>(
    session: Session<'a>,
    act: Act,
    sheet: &[u8],
    tables: &mut Tables,
    lines: &mut [u8],
) -> Session<'a> {
    let history = session.history;
    let (columns, rows) = lent(session.stores);
    let words = &mut tables.words;
    let bytes = &mut tables.bytes;
    let columnbytes = &mut tables.columnstore[..];
    let rowbytes = &mut tables.rowstore[..];
    let columnstore = &mut columnbytes[..columns];
    let rowstore = &mut rowbytes[..rows];
    let answer = match act {
        Act::Edit(text) => edit(
            sheet,
            text,
            history,
            words,
            bytes,
            columnstore,
            rowstore,
            lines,
        ),
        Act::Enter(entry) => edit_name(
            sheet,
            entry,
            history,
            words,
            bytes,
            columnstore,
            rowstore,
            lines,
        ),
        Act::Recall(step) => recall(
            sheet,
            step.into(),
            history,
            words,
            bytes,
            columnstore,
            rowstore,
            lines,
        ),
        _ => return session,
    };
    called(session, answer)
}

// Bytes that no call wrote, as many as there is room for.
fn put(lines: &mut [u8], place: u32, data: &[u8]) {
    let start = lines.len().min(place as usize);
    let count = data.len().min(lines.len() - start);
    lines[start..start + count].copy_from_slice(&data[..count]);
}

// One act.
fn acted<'a>(
    session: Session<'a>,
    act: Act,
    sheet: &[u8],
    tables: &mut Tables,
    lines: &mut [u8],
) -> Session<'a> {
    match act {
        Act::Lend(stores) => Session {
            stores: Some(stores),
            ..session
        },
        Act::Steps(history) => Session { history, ..session },
        Act::Put(place, data) => {
            put(lines, place, data);
            session
        }
        Act::Show(cut) => Session {
            seen: seen_panel(session.seen, cut, tables.shown(session.panel), None),
            ..session
        },
        Act::Lines => Session {
            seen: session.seen.part(lines).part(b"\n"),
            ..session
        },
        call_act => call(session, call_act, sheet, tables, lines),
    }
}

impl<'a> ActedSheet<'a> {
    // The block that comes next, after its `history` line.
    pub fn read(input: &mut Reader<'a>) -> ActedSheet<'a> {
        let bytes = input.head().number;
        let sheet = input.head().number;
        let sheet = input.bytes(sheet as usize);
        let line = input.line();
        let count = number_of(text::part(line, b' ', 2));
        let text = input.bytes(count as usize);
        let expected = input.head().number;
        ActedSheet {
            bytes,
            sheet,
            acts: head_of(line).number,
            text,
            expected: input.bytes(expected as usize),
        }
    }

    // Whether the acts are answered as is expected. Of a sheet that is refused the panel is empty.
    pub fn is_same(self, tables: &mut Tables) -> bool {
        let mut bytes = [UNWRITTEN; MOST_BYTES];
        let lines = &mut bytes[..MOST_BYTES.min(self.bytes as usize)];
        let mut session = Session {
            panel: tables.read(self.sheet, None).unwrap_or_default(),
            history: History::default(),
            stores: None,
            seen: Expected::new(self.expected),
        };
        let mut input = Reader { rest: self.text };
        for _ in 0..self.acts {
            session = acted(session, read_act(&mut input), self.sheet, tables, lines);
        }
        session.seen.is_over()
    }
}
