//! The command `serve`: the lines of 1 to 16 clients are answered at once, over one journal.

mod books;
mod journals;
mod runs;
mod works;

pub use runs::run_serve;
