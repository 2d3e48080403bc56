//! The history that the file of a journal tells: read in one pass, with each
//! entry judged by those before it.

mod files;
mod histories;
mod joins;
mod laws;
mod moves;
mod pieces;

pub use files::read_journal;
pub use histories::Found;
pub use laws::{one_reading, readers_see_one_moment};
pub use moves::{MoveFault, init_from};
