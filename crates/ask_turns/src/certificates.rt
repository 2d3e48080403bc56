//! Searches whose answers are shown: beside each stand members that pass the check of refusals.

mod laws;
mod searches;

pub use laws::{certificates_can_be_told, certificates_pass};
pub use searches::{Certified, seek_certified};
