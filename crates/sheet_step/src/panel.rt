// What a record does to the panel: it is written to one axis, to the areas or to the placements, or drawn; a cell is two placements.
ghost use Rattle.std.specs.Prelude.{◌≡◌, cond, length, drop, [], Ok};
ghost use Rattle.text.specs.Split.{split};
ghost use Rattle.text.specs.Places.{part_at};
ghost use Rattle.coordinates.specs.Refusals.{refused_by};
ghost use Rattle.sheet_forms.specs.Answers.{place_end, said_of};
ghost use Rattle.axis_tables.specs.Readings.{axis_reading};
ghost use Rattle.axis_tables.specs.Store.{answered_axis};
ghost use Rattle.panel_tables.specs.Areas.{answered_panel};
ghost use Rattle.panel_tables.specs.Placements.{end_named, uses_name};
ghost use Rattle.sheet_rules.specs.Lines.{placed_end};
ghost use Rattle.sheet_rules.specs.Steps.{on_held};
ghost use Rattle.sheet_faults.specs.Parts.{named, named_step};
ghost use Rattle.sheet_step.specs.Drafts.{held_of, names_at};
ghost use Rattle.sheet_step.specs.Regions.{on_axis_after, on_areas, on_ends};

use crate::Draft;
use crate::axis::axis_record;
use axis_tables::AxisAfter;
use axis_tables::layout::{AXIS_MARKS, AXIS_WORDS};
use coordinates::{Axis, Fault};
use panel_tables::area::{AREA_BYTES, AREA_WORDS};
use panel_tables::axis::{with_reading, with_state};
use panel_tables::placement::{PLACEMENT_BYTES, PLACEMENT_WORDS};
use panel_tables::region::{
    AREA_NAMES_START, AREAS, PANEL_BYTES, PANEL_WORDS, PLACEMENT_NAMES_START, PLACEMENTS,
    first_mark, first_word,
};
use panel_tables::{AreaEdges, Panel, PlacementEnd};
use panel_writes::area_record::put_area;
use panel_writes::place_record::{NamedEnd, put_placement};
use sheet_faults::overlap::edges_of;
use sheet_forms::{AxisRecord, PlaceEnd, Record};
use sheet_lines::LineRecord;
use text::part_at;

// An end as a placement has it.
fn placed(end: PlaceEnd) -> PlacementEnd
    ensures { result ≡ record { kind = (place_end end).kind; number = (place_end end).number } }
{
    PlacementEnd {
        kind: u32::from(end.kind()),
        number: end.number(),
    }
}

// The name of an end, empty where its kind uses none.
fn used_name(end: PlaceEnd, name: &[u8]) -> &[u8]
    ensures { result.now ≡ cond (uses_name (place_end end).kind) name.now [] }
{
    match end {
        PlaceEnd::Named(_) | PlaceEnd::NamedSpan(_) => name,
        PlaceEnd::Auto | PlaceEnd::Line(_) | PlaceEnd::Span(_) => &[],
    }
}

// An end as a placement has it, with the name that it uses.
pub(crate) fn named_end(end: PlaceEnd, name: &[u8]) -> NamedEnd<'_>
    ensures { end_named result.end result.name.now ≡ placed_end name.now (place_end end) }
{
    NamedEnd {
        end: placed(end),
        name: used_name(end, name),
    }
}

// A record of an axis, written into the axis's parts of the words and of the marks, and into its names.
fn on_axis(
    axis: Axis,
    before: AxisAfter,
    words: &mut [u64; PANEL_WORDS],
    bytes: &mut [u8; PANEL_BYTES],
    store: &mut [u8],
    name: &[u8],
    said: Record,
) -> Result<AxisAfter, Fault>
    ensures written { record { answer = answered_axis before.state (axis_reading before.reading) result; words = words.new; marks = bytes.new; bytes = store.new } ≡ on_axis_after axis before.state (axis_reading before.reading) words.old bytes.old store.old name.now (said_of (Ok said)) }
    ensures lengths { (length words.new ≡ 26368) × (length bytes.new ≡ 94816) }
{
    let first = first_word(axis);
    let mark = first_mark(axis);
    let end = first + AXIS_WORDS;
    let last = mark + AXIS_MARKS;
    axis_record(
        before,
        &mut words[first..end],
        &mut bytes[mark..last],
        store,
        name,
        said,
    )
}

// An area, written into the areas' parts of the words and of the bytes.
fn on_areas(
    panel: Panel,
    words: &mut [u64; PANEL_WORDS],
    bytes: &mut [u8; PANEL_BYTES],
    name: &[u8],
    edges: AreaEdges,
) -> Result<Panel, Fault>
    ensures written { record { answer = answered_panel panel result; words = words.new; bytes = bytes.new } ≡ on_areas panel words.old bytes.old name.now edges }
    ensures lengths { (length words.new ≡ 26368) × (length bytes.new ≡ 94816) }
{
    let words = &mut words[AREAS..AREAS + AREA_WORDS];
    let bytes = &mut bytes[AREA_NAMES_START..AREA_NAMES_START + AREA_BYTES];
    put_area(panel, words, bytes, name, edges)
}

// A placement, written into the placements' parts of the words and of the bytes.
fn on_placements(
    panel: Panel,
    words: &mut [u64; PANEL_WORDS],
    bytes: &mut [u8; PANEL_BYTES],
    axis: Axis,
    start: NamedEnd<'_>,
    end: NamedEnd<'_>,
) -> Result<Panel, Fault>
    ensures written { record { answer = answered_panel panel result; words = words.new; bytes = bytes.new } ≡ on_ends panel words.old bytes.old axis (end_named start.entry.end start.entry.name.now) (end_named end.entry.end end.entry.name.now) }
    ensures lengths { (length words.new ≡ 26368) × (length bytes.new ≡ 94816) }
{
    let words = &mut words[PLACEMENTS..PLACEMENTS + PLACEMENT_WORDS];
    let bytes = &mut bytes[PLACEMENT_NAMES_START..PLACEMENT_NAMES_START + PLACEMENT_BYTES];
    put_placement(panel, words, bytes, axis, start, end)
}

impl Draft {
    // A record of an axis.
    fn on_own_axis(&mut self, axis: Axis, name: &[u8], said: Record) -> Result<(), Fault>
        ensures { record { fault = refused_by result; held = held_of self.new } ≡ on_held (held_of self.old) axis (named name.now) (said_of (Ok said)) }
    {
        let before = self.axis(axis);
        let (words, bytes) = (&mut self.words, &mut self.bytes);
        let written = match axis {
            Axis::Column => on_axis(
                axis,
                before,
                words,
                bytes,
                &mut self.column_bytes,
                name,
                said,
            ),
            Axis::Row => on_axis(axis, before, words, bytes, &mut self.row_bytes, name, said),
        };
        let after = written?;
        self.panel = with_state(self.panel, axis, after.state);
        self.reading = with_reading(self.reading, axis, after.reading);
        Ok(())
    }

    // A record of a line with its names and words, written; whether it has a fault or may stand there is not looked at.
    pub(crate) fn write(&mut self, line: &[u8], there: LineRecord) -> Result<(), Fault>
        ensures { record { fault = refused_by result; held = held_of self.new } ≡ named_step (held_of self.old) (names_at line.now there) (drop 1 (split 9 line.now)) (said_of there.said) }
    {
        let Ok(said) = there.said else {
            return Ok(());
        };
        let first = part_at(line, there.first);
        match said {
            Record::Area(area) => {
                let edges = edges_of(area);
                self.panel = on_areas(self.panel, &mut self.words, &mut self.bytes, first, edges)?;
                Ok(())
            }
            Record::Place(axis, ends) => {
                let second = part_at(line, there.second);
                let (words, bytes) = (&mut self.words, &mut self.bytes);
                let from = named_end(ends.start, first);
                let to = named_end(ends.end, second);
                self.panel = on_placements(self.panel, words, bytes, axis, from, to)?;
                Ok(())
            }
            Record::PictureRow(width) => self.draw(line, width),
            Record::Cell(cell) => self.write_cell(line, there, cell),
            Record::Axis(AxisRecord { axis, .. })
            | Record::Name(axis)
            | Record::Track(axis, _)
            | Record::Repeat(axis, _)
            | Record::End(axis)
            | Record::Spare(axis, _)
            | Record::Extra(axis, _, _)
            | Record::Item(axis, _) => self.on_own_axis(axis, first, said),
        }
    }
}
