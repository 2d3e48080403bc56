//! The world of clients and one history, as a machine of events: turns, searches, entries,
//! faults, crashes and openings.
#![tactic(auto)]

mod clients;
mod events;
mod joining;
mod laws;
mod limits;
mod notes;
mod worlds;

pub use events::Event;
pub use laws::{
    events_take_pairs, points_go_back_by_loss_alone, settled_entries_stay, worlds_stay_sound,
};
pub use notes::Note;
pub use worlds::World;
