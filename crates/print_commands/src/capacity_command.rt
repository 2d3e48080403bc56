//! The command `capacity`: how much of its time the trains of a stretch take (UIC Code 406).

mod runs;
mod texts;
mod works;

pub use runs::run_capacity;
