// The lines that make a template and its axis: `axis`, `track`, `spare`, `repeat`, `end`.
ghost use Rattle.std.specs.Prelude.{◌≡◌, true, false};
ghost use Rattle.sheet_forms.specs.Answers.{axis_said, inner_said, repetition_said, rule_said, said_of, size_said};
ghost use Rattle.sheet_forms.specs.Fields.{rule_of};
ghost use Rattle.sheet_forms.specs.Records.{made_axis, axis_line, made_sizes, sizes_line, made_repeat, repeat_line, made_end, end_line};
ghost use Rattle.sheet_lines.specs.Fields.{fields_of};
ghost use Rattle.sheet_lines.specs.Sizes.{track_of, spare_of};

use crate::fields::{AXIS_FIELDS, END_FIELDS, Fields, REPEAT_FIELDS, SIZES_FIELDS};
use coordinates::{Axis, Fault};
use sheet_fields::repetition::repetition;
use sheet_fields::size::{inner, size};
use sheet_forms::field::axis;
use sheet_forms::{AxisRecord, Position, Record, Repetition, TrackSizes, both};
use template_rules::AutoRepeatStrategy;

// The rule, `max` or `min`.
#[tactic(auto, unfolding(sheet_forms::specs::Fields::rule_of, text::specs::Split::index, text::specs::Split::same))]
fn rule(f: &[u8]) -> Result<AutoRepeatStrategy, Fault>
    ensures { rule_said result ≡ rule_of f.now }
{
    match f {
        b"max" => Ok(AutoRepeatStrategy::MaxRepetitionsThatDoNotOverflow),
        b"min" => Ok(AutoRepeatStrategy::MinRepetitionsThatDoOverflow),
        _ => Err(Fault::Unread),
    }
}

// An axis of these parts.
#[tactic(auto, unfolding(sheet_forms::specs::Faults::first_of), using(sheet_forms::proofs::Parts::unless_fault))]
fn make_axis(
    axis: Result<Axis, Fault>,
    inner: Result<Option<u32>, Fault>,
    rule: Result<AutoRepeatStrategy, Fault>,
    gap: Result<u64, Fault>,
) -> Result<Record, Fault>
    ensures { said_of result ≡ made_axis (axis_said axis) (inner_said inner) (rule_said rule) (size_said gap) }
{
    let (axis, (inner, (rule, gap))) = both(axis, both(inner, both(rule, gap)))?;
    Ok(Record::Axis(AxisRecord {
        axis,
        inner,
        rule,
        gap,
    }))
}

// `axis`, axis, inner size or `-`, `max` or `min`, gap kind, gap
#[tactic(auto, unfolding(sheet_forms::specs::Records::axis_line))]
pub fn axis_line(fields: &Fields<'_>) -> Result<Record, Fault>
    ensures { said_of result ≡ axis_line (fields_of fields.now) }
{
    fields.check_count(AXIS_FIELDS)?;
    make_axis(
        axis(fields.field(1)),
        inner(fields.field(2)),
        rule(fields.field(3)),
        size(Position::Gap, fields.field(4), fields.field(5)),
    )
}

// The sizes of a track on an axis, of these parts.
#[tactic(auto, unfolding(sheet_forms::specs::Faults::first_of), using(sheet_forms::proofs::Parts::unless_fault))]
fn make_sizes(
    axis: Result<Axis, Fault>,
    min: Result<u64, Fault>,
    max: Result<u64, Fault>,
) -> Result<(Axis, TrackSizes), Fault>
    ensures track { said_of (track_of result) ≡ made_sizes false (axis_said axis) (size_said min) (size_said max) }
    ensures spare { said_of (spare_of result) ≡ made_sizes true (axis_said axis) (size_said min) (size_said max) }
{
    let (axis, (min, max)) = both(axis, both(min, max))?;
    Ok((axis, TrackSizes { min, max }))
}

// Kind, axis, minimum kind, value, maximum kind, value
#[tactic(auto, unfolding(sheet_forms::specs::Records::sizes_line))]
fn sizes(fields: &Fields<'_>) -> Result<(Axis, TrackSizes), Fault>
    ensures track { said_of (track_of result) ≡ sizes_line false (fields_of fields.now) }
    ensures spare { said_of (spare_of result) ≡ sizes_line true (fields_of fields.now) }
{
    fields.check_count(SIZES_FIELDS)?;
    make_sizes(
        axis(fields.field(1)),
        size(Position::Minimum, fields.field(2), fields.field(3)),
        size(Position::Maximum, fields.field(4), fields.field(5)),
    )
}

// `track`, and the sizes of a track
pub fn track_line(fields: &Fields<'_>) -> Result<Record, Fault>
    ensures { said_of result ≡ sizes_line false (fields_of fields.now) }
{
    let (axis, track) = sizes(fields)?;
    Ok(Record::Track(axis, track))
}

// `spare`, and the sizes of the track that spare tracks have
pub fn spare_line(fields: &Fields<'_>) -> Result<Record, Fault>
    ensures { said_of result ≡ sizes_line true (fields_of fields.now) }
{
    let (axis, spare) = sizes(fields)?;
    Ok(Record::Spare(axis, spare))
}

// A repeat of these parts: one whose count is outside its range still says its axis.
fn make_repeat(
    axis: Result<Axis, Fault>,
    repetition: Result<Repetition, Fault>,
) -> Result<Record, Fault>
    ensures { said_of result ≡ made_repeat (axis_said axis) (repetition_said repetition) }
{
    let axis = axis?;
    match repetition {
        Err(Fault::Unread) => Err(Fault::Unread),
        _ => Ok(Record::Repeat(axis, repetition)),
    }
}

// `repeat`, axis, count or `fill` or `fit`
#[tactic(auto, unfolding(sheet_forms::specs::Records::repeat_line))]
pub fn repeat_line(fields: &Fields<'_>) -> Result<Record, Fault>
    ensures { said_of result ≡ repeat_line (fields_of fields.now) }
{
    fields.check_count(REPEAT_FIELDS)?;
    make_repeat(axis(fields.field(1)), repetition(fields.field(2)))
}

// The end of a repeat of an axis.
fn make_end(axis: Result<Axis, Fault>) -> Result<Record, Fault>
    ensures { said_of result ≡ made_end (axis_said axis) }
{
    Ok(Record::End(axis?))
}

// `end`, axis
#[tactic(auto, unfolding(sheet_forms::specs::Records::end_line))]
pub fn end_line(fields: &Fields<'_>) -> Result<Record, Fault>
    ensures { said_of result ≡ end_line (fields_of fields.now) }
{
    fields.check_count(END_FIELDS)?;
    make_end(axis(fields.field(1)))
}
