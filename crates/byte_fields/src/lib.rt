//! Bytes as fields: a text that grows, numbers written most significant byte first, and a reader
//! that gives them back one after another and says where bytes are missing or too many.
#![tactic(auto)]

mod buffers;
mod faults;
mod readers;
mod writers;

pub use buffers::Buffer;
pub use faults::{Over, Short};
pub use readers::{Fields, one_form};
pub use writers::{put_bytes, put_i64, put_u8, put_u32, put_u64};
