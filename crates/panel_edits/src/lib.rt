// What edits do to the draft of a panel: the lines of a sheet are read into it, and the texts of edits after them, before what comes after the
// last line and then again.

#![tactic(auto)]

pub mod drafting;
pub mod entries;
pub mod lines;
pub mod texts;

pub use drafting::{draft_sheet, empty_draft};
pub use entries::enter;
pub use lines::apply;
pub use texts::{Edit, Entry, read_edit};
