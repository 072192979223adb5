// One run of a drawn name in the table of areas: one area more, or an area that goes on into one row more.

#![tactic(auto)]

pub mod draw;
pub mod grow;

pub use draw::{PictureAfter, draw_run};
