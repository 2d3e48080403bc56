//! A file written to an empty disk, which counts only once it stands whole: its first byte is
//! written last.
mod files;
mod parts;
mod writes;

pub use files::{check_empty, write_whole};
