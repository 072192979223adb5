// One line of a panel sheet: its record is read, checked against the lines before it, and written into the tables.

#![tactic(auto)]

mod axis;
mod cell;
mod panel;
mod picture;

ghost use Rattle.std.specs.Prelude.{◌≡◌};
ghost use Rattle.text.specs.Split.{split};
ghost use Rattle.coordinates.specs.Refusals.{fault_number, refused_by};
ghost use Rattle.axis_tables.specs.Readings.{axis_reading};
ghost use Rattle.panel_tables.specs.Axes.{state_in, reading_in};
ghost use Rattle.panel_tables.specs.Readings.{panel_reading};
ghost use Rattle.panel_cells.specs.Steps.{area_number_of};
ghost use Rattle.sheet_forms.specs.Faults.{first_of};
ghost use Rattle.panel_tables.specs.Regions.{area_words_in, area_bytes_in};
ghost use Rattle.sheet_faults.specs.Lines.{line_in, line_shared};
ghost use Rattle.sheet_step.specs.Drafts.{held_of};

use axis_tables::AxisAfter;
use axis_tables::layout::AXIS_BYTES;
use cell::next_line;
use coordinates::{Axis, Fault};
use panel_tables::axis::{reading_in, state_in};
use panel_tables::region::{PANEL_BYTES, PANEL_WORDS, area_bytes, area_words};
use panel_tables::{Panel, Reading};
use sheet_faults::fault::{AreasBefore, fault_before, stage};
use sheet_faults::overlap::{noted, shared};
use sheet_forms::{both, first_fault};
use sheet_lines::read_record;
use text::part_at;

// What a sheet is read into: the state of its panel, what only reading needs, and the tables with the names of both axes.
#[derive(Drop)]
pub struct Draft {
    pub panel: Panel,
    pub reading: Reading,
    pub words: [u64; PANEL_WORDS],
    pub bytes: [u8; PANEL_BYTES],
    pub column_bytes: [u8; AXIS_BYTES],
    pub row_bytes: [u8; AXIS_BYTES],
}

// What a line is refused by, the first of its faults but an overlap; and the place, from 0, of the first area that it shares a cell with, where
// an overlap is the first of all its faults.
#[derive(Clone, Copy, Debug, PartialEq, Eq)]
pub struct LineRead {
    pub fault: Option<Fault>,
    pub shared: Option<u32>,
}

// The first of two refusals, where there is any.
pub fn first_refusal<A: Copy, B: Copy>(
    a: Result<A, Fault>,
    b: Result<B, Fault>,
) -> Result<(), Fault>
    ensures { refused_by result ≡ first_of (refused_by a) (refused_by b) }
{
    both(a, b).map(|_| ())
}

impl Draft {
    // An axis so far.
    pub fn axis(&self, axis: Axis) -> AxisAfter
        ensures state { result.state ≡ state_in self.now.panel axis }
        ensures reading { axis_reading result.reading ≡ reading_in (panel_reading self.now.reading) axis }
    {
        AxisAfter {
            state: state_in(self.panel, axis),
            reading: reading_in(self.reading, axis),
        }
    }

    // The areas so far.
    fn areas(&self) -> AreasBefore<'_>
        ensures count { result.count ≡ self.now.panel.grid.areas }
        ensures words { result.words.now ≡ area_words_in self.now.words }
        ensures bytes { result.bytes.now ≡ area_bytes_in self.now.bytes }
    {
        AreasBefore {
            count: self.panel.grid.areas,
            words: area_words(&self.words),
            bytes: area_bytes(&self.bytes),
        }
    }
}

// What a line does to the draft. A line with a fault may have written.
pub fn read_line(draft: &mut Draft, line: &[u8]) -> LineRead
    ensures read { record { fault = fault_number result.fault; held = held_of draft.new } ≡ line_in (held_of draft.old) (split 9 line.now) }
    ensures overlap { area_number_of result.shared ≡ line_shared (held_of draft.old) (split 9 line.now) }
{
    let there = read_record(line);
    let areas = draft.areas();
    let before = fault_before(areas, draft.reading, part_at(line, there.first), there.said);
    let with = shared(areas, there.said);
    let reached = stage(draft.reading.stage, there.said);
    let written = draft.write(line, there).err();
    draft.reading.stage = reached;
    draft.reading.lines = next_line(draft.reading.lines);
    LineRead {
        fault: first_fault(before, written),
        shared: noted(before, with, written),
    }
}
