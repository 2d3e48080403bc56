//! What a client of a book knows, and the turns that it takes: each is whole, from the gate and
//! back, and leaves the book settled or tells why not.

mod clients;
mod halts;
mod laws;
mod told;
mod turns;

pub use clients::Client;
pub use halts::Halt;
pub use told::{Entered, Judged, Refusal, Standing, Tried};
pub use turns::{enter_entry, find_again, look, show, try_entry};
