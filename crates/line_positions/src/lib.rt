// Where the lines of an axis lie: what a record measures, and what one walk over the records gathers, by value.

#![tactic(auto)]

ghost use Rattle.std.specs.Prelude.{◌≡◌};

pub mod measure;
pub mod step;

// A span of positions, by its ends; a cursor is a span of one position.
#[derive(Clone, Copy, Debug, PartialEq, Eq)]
pub struct Span<T> {
    pub low: T,
    pub high: T,
}

impl<T: Copy> Span<T> {
    // The span of one position.
    pub fn at(position: T) -> Span<T>
        ensures { result ≡ record { low = position; high = position } }
    {
        Span {
            low: position,
            high: position,
        }
    }
}

// What is gathered of the records so far: where the next one starts, whether each has a definite size, the line nearest to the low
// end of a span and its distance, how many lines lie before the span, and how many at its high end or before.
#[derive(Clone, Copy, Debug, PartialEq)]
pub struct LineWalk {
    pub start: f32,
    pub definite: bool,
    pub nearest: u32,
    pub distance: f32,
    pub below: u32,
    pub upto: u32,
}
