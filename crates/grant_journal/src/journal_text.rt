//! How a journal is spelled: a header, and behind it the records of a history, each of which counts
//! once the gate before it is open.

mod headers;
mod laws;
mod records;

pub use headers::{HEADER_BYTES, header};
pub use laws::bytes_are_counted;
pub use records::record;
