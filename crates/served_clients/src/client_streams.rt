//! The source and the sink of a client, and the sink of its proofs: opened under their names, and
//! put back; and what is called between its searches.

mod betweens;
mod opening;
mod returning;
mod streams;

pub use betweens::between_of;
pub use opening::{open_served, open_streams};
pub use returning::{put_back_client, put_back_served};
pub use streams::ClientStreams;
