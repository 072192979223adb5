// The faults that a record has before it is written: by itself, by an earlier record of the same, by the kind order.
ghost use Rattle.std.specs.Prelude.{◌≡◌, Ok};
ghost use Rattle.coordinates.specs.Refusals.{fault_number};
ghost use Rattle.panel_tables.specs.Readings.{stage_number, panel_reading};
ghost use Rattle.sheet_forms.specs.Answers.{said_of};
ghost use Rattle.sheet_forms.specs.Records.{fault_of};
ghost use Rattle.sheet_rules.specs.Lines.{late_at};
ghost use Rattle.sheet_faults.specs.Lines.{stage_in, late_in};
ghost use Rattle.sheet_faults.specs.Parts.{axis_twice, area_twice, twice_of, before_of};

use coordinates::{Axis, Fault};
use panel_tables::Reading;
use panel_tables::area::has_area;
use panel_tables::axis::reading_in;
use panel_tables::stage::Stage;
use sheet_forms::{Record, first_fault};

// The areas that stand before a line: how many, their words, and the bytes of their names.
#[derive(Clone, Copy)]
pub struct AreasBefore<'a> {
    pub count: u32,
    pub words: &'a [u64],
    pub bytes: &'a [u8],
}

// The fault of a record by itself.
fn own(said: Record) -> Option<Fault>
    ensures { fault_number result ≡ fault_of (said_of (Ok said)) }
{
    match said {
        Record::Repeat(_, repetition) => repetition.err(),
        _ => None,
    }
}

// An axis record again.
fn axis_twice(reading: Reading, axis: Axis) -> Option<Fault>
    ensures { fault_number result ≡ axis_twice (panel_reading reading) axis }
{
    reading_in(reading, axis).seen.then_some(Fault::Twice)
}

// An area name again.
fn area_twice(areas: AreasBefore<'_>, name: &[u8]) -> Option<Fault>
    ensures { fault_number result ≡ area_twice areas.entry.count areas.entry.words.now areas.entry.bytes.now name.now }
{
    has_area(areas.count, areas.words, areas.bytes, name).then_some(Fault::Twice)
}

// An area name or axis record again, where a record's first name is `name`.
fn twice(areas: AreasBefore<'_>, reading: Reading, name: &[u8], said: Record) -> Option<Fault>
    ensures { fault_number result ≡ twice_of areas.entry.count (panel_reading reading) areas.entry.words.now areas.entry.bytes.now name.now (said_of (Ok said)) }
{
    match said {
        Record::Axis(a) => axis_twice(reading, a.axis),
        Record::Area(_) => area_twice(areas, name),
        _ => None,
    }
}

// Whether a stage of the kind order comes too late: after a later one, or a row after an area.
pub fn late_at(place: Stage, reached: Stage) -> bool
    ensures { result ≡ late_at (stage_number place) (stage_number reached) }
{
    place < reached || (place == Stage::Rows && reached == Stage::Areas)
}

// The stage of a record in the kind order; a line that is no record keeps the one reached.
pub fn stage(reached: Stage, said: Result<Record, Fault>) -> Stage
    ensures { stage_number result ≡ stage_in (stage_number reached) (said_of said) }
{
    match said {
        Err(_) => reached,
        Ok(Record::Axis(_)) => Stage::Axes,
        Ok(Record::Area(_)) => Stage::Areas,
        Ok(Record::PictureRow(_)) => Stage::Rows,
        Ok(_) => Stage::Rest,
    }
}

// A record earlier in kind than one before it.
fn late(reached: Stage, said: Record) -> Option<Fault>
    ensures { fault_number result ≡ late_in (stage_number reached) (said_of (Ok said)) }
{
    late_at(stage(reached, Ok(said)), reached).then_some(Fault::Late)
}

// Of the faults that a record whose first name is `name` has before it is written, the one that comes first; a line that is no record has its
// own alone.
pub fn fault_before(
    areas: AreasBefore<'_>,
    reading: Reading,
    name: &[u8],
    said: Result<Record, Fault>,
) -> Option<Fault>
    ensures { fault_number result ≡ before_of areas.entry.count (panel_reading reading) areas.entry.words.now areas.entry.bytes.now name.now (said_of said) }
{
    let said = match said {
        Ok(said) => said,
        Err(fault) => return Some(fault),
    };
    let first = own(said);
    let again = twice(areas, reading, name, said);
    let after = late(reading.stage, said);
    first_fault(first, first_fault(again, after))
}
