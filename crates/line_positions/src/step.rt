// One record further in the walk over the records of an axis.
ghost use Rattle.std.specs.Prelude.{◌≡◌};
ghost use Rattle.line_positions.specs.Positions.{distance_of};
ghost use Rattle.line_positions.specs.Steps.{nearer_than, one_more, line_met, line_at, record_passed, position_step, walk_begun};

use crate::measure::record_value;
use crate::{LineWalk, Span};
use track_rules::GridTrack;

// The f32 difference of two positions.
pub fn distance(a: f32, b: f32) -> f32
    ensures { result ≡ distance_of a b }
{
    if a < b { b - a } else { a - b }
}

// Whether a line is nearer than the nearest before it; the first has none before it.
pub fn nearer(line: u32, distance: f32, least: f32) -> bool
    ensures { result ≡ nearer_than line distance least }
{
    line == 0 || distance < least
}

// One more where a test holds; the largest number stays.
fn one_more(test: bool, n: u32) -> u32
    ensures { result ≡ one_more test n }
{
    n.saturating_add(u32::from(test))
}

// A line is met where the walk stands.
#[tactic(auto, unfolding(crate::specs::Steps::line_met))]
fn line_met(span: Span<f32>, at: LineWalk, line: u32) -> LineWalk
    ensures { result ≡ line_met span at line }
{
    let from = distance(at.start, span.low);
    let below = one_more(at.start < span.low, at.below);
    let upto = one_more(at.start <= span.high, at.upto);
    let met = LineWalk { below, upto, ..at };
    if nearer(line, from, at.distance) {
        return LineWalk {
            nearest: line,
            distance: from,
            ..met
        };
    }
    met
}

// The record that starts there is passed.
#[tactic(auto, unfolding(crate::specs::Steps::record_passed))]
fn record_passed(at: LineWalk, value: Option<f32>) -> LineWalk
    ensures { result ≡ record_passed at value }
{
    LineWalk {
        start: at.start + value.unwrap_or(0.0),
        definite: at.definite && value.is_some(),
        ..at
    }
}

// Whether a line lies at the start of a record: of each track, and of the last record.
fn is_line_at(last: u32, index: u32) -> bool
    ensures { result ≡ line_at last index }
{
    index % 2 == 1 || index == last
}

// Before the first record.
pub fn begin() -> LineWalk
    ensures { result ≡ walk_begun }
{
    LineWalk {
        start: 0.0,
        definite: true,
        nearest: 0,
        distance: 0.0,
        below: 0,
        upto: 0,
    }
}

// Record `index` of records up to `last`: the line that lies at its start, and then what it measures.
#[tactic(auto, unfolding(crate::specs::Steps::position_step))]
pub fn position_step(
    span: Span<f32>,
    inner: Option<f32>,
    at: LineWalk,
    last: u32,
    index: u32,
    track: GridTrack,
) -> LineWalk
    ensures { result ≡ position_step span inner at last index track }
{
    let value = record_value(track, inner);
    if is_line_at(last, index) {
        return record_passed(line_met(span, at, index / 2), value);
    }
    record_passed(at, value)
}
