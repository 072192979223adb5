// One line of a panel sheet by itself: the form that its fields make, or its fault, and where its names lie. Lines of a template,
// `axis`, `track` and `spare`, `repeat`, and `end`, stand in `templates`, a `row` of a picture in `row`, the others in `lines`.

#![tactic(auto)]

pub mod fields;
pub mod kinds;
mod lines;
mod read;
mod row;
pub mod templates;

use coordinates::Fault;
pub use kinds::{LineKind, kind};
pub use read::read_record;
use sheet_forms::Record;
use text::Place;

// What a line says, or its fault, and where its names lie in it: the empty place where there is none.
#[derive(Clone, Copy, Debug, PartialEq, Eq)]
pub struct LineRecord {
    pub said: Result<Record, Fault>,
    pub first: Place,
    pub second: Place,
    pub third: Place,
    pub fourth: Place,
}
