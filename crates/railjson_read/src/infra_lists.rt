//! Tracks, switches, detectors, buffer stops and signals of an infrastructure's file.

mod signal_lists;
mod switch_lists;
mod track_lists;

pub use signal_lists::signals_of;
pub use switch_lists::switches_of;
pub use track_lists::{placed_of, tracks_of};
