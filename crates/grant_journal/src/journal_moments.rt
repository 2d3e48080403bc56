//! A journal that keeps, for each entry settled since it was made, the moment of its disk's clock
//! from which on a crash leaves that entry.

mod timed;

pub use timed::TimedJournal;
