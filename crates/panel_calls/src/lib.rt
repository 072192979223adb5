// The calls on a panel: each takes the panel by value and is lent the tables and stores that it reads or writes.

#![tactic(auto)]

pub mod axis_track;
pub mod part;
pub mod run;
pub mod size;
pub mod track;

pub use panel_names::entering::enter_name;
pub use panel_names::naming::line_name;
pub use panel_resolving::placing::resolve_placement;
pub use run::initialize_grid_tracks;
pub use sheet::read_sheet;
pub use size::{explicit_size, line_count};
pub use track::{record_count, track_record};
