// What a record does to one axis.
ghost use Rattle.std.specs.Prelude.{◌≡◌, Ok};
ghost use Rattle.sheet_forms.specs.Answers.{bits_said, is_definite, rule_number, said_of};
ghost use Rattle.axis_tables.specs.Readings.{axis_reading};
ghost use Rattle.axis_tables.specs.Store.{put, answered_axis};
ghost use Rattle.sheet_rules.specs.Lines.{bit};
ghost use Rattle.sheet_rules.specs.Steps.{axis_record};
ghost use Rattle.sheet_faults.specs.Parts.{named};

use axis_tables::name::put_name;
use axis_tables::{AxisAfter, AxisSpace};
use axis_writes::axis::{put_axis, put_extra, put_item};
use axis_writes::spare::put_spare;
use axis_writes::template::{close_repeat, open_repeat, put_track};
use coordinates::Fault;
use sheet_forms::{AxisRecord, Record, Repetition};

// The space of an axis, as its record says it.
fn space_of(said: AxisRecord) -> AxisSpace
    ensures { result ≡ record { definite = bit (is_definite said.inner); inner = bits_said said.inner; rule = rule_number said.rule; gap = said.gap } }
{
    AxisSpace {
        definite: u32::from(said.inner.is_some()),
        inner: said.inner.unwrap_or(0),
        rule: u32::from(said.rule),
        gap: said.gap,
    }
}

// A record of the axis, with its name. Any other record leaves the axis as it is.
pub fn axis_record(
    axis: AxisAfter,
    words: &mut [u64],
    marks: &mut [u8],
    bytes: &mut [u8],
    name: &[u8],
    said: Record,
) -> Result<AxisAfter, Fault>
    ensures { record { answer = answered_axis axis.state (axis_reading axis.reading) result; words = words.new; marks = marks.new; bytes = bytes.new } ≡ axis_record (record { answer = put 0 axis.state (axis_reading axis.reading); words = words.old; marks = marks.old; bytes = bytes.old }) (named name.now) (said_of (Ok said)) }
{
    match said {
        Record::Axis(a) => Ok(put_axis(axis, space_of(a))),
        Record::Name(_) => put_name(axis, words, bytes, name),
        Record::Track(_, sizes) => put_track(axis, words, sizes),
        // The line of a count that was not read is refused; it still says that a repeat is open.
        Record::Repeat(_, said) => open_repeat(axis, said.unwrap_or(Repetition::Count(0))),
        Record::End(_) => close_repeat(axis, words),
        Record::Spare(_, sizes) => put_spare(axis, words, sizes),
        Record::Extra(_, negative, positive) => Ok(put_extra(axis, negative, positive)),
        Record::Item(_, index) => put_item(axis, marks, index),
        Record::Area(_) | Record::Place(_, _) | Record::PictureRow(_) | Record::Cell(_) => Ok(axis),
    }
}
