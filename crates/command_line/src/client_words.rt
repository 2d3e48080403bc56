//! The clients of a command line: the words that name them, and which may be served together.

mod clients;
mod distinct;
mod parts;

pub use clients::{ClientWord, MAX_CLIENTS, read_client, read_clients};
pub use parts::cut_at_colon;
