//! A gate that keeps one book: threads take it out in turns, one at a time, and
//! what they know of it agrees.
//!
//! `Gate::new` gives the pass that has all turns. `split` gives some of them to a new pass, for
//! another thread, and `join` takes that one in again. A turn is `enter`, any changes through
//! `Held::book`, and `leave`. Once all passes are one, `close` hands the book back.
//!
//! A pass has no bytes. What it knows stands in clauses alone: the list that it has seen, and of
//! each of its turns what it found and what it left. So at the end the turns of all threads are one
//! chain, from the book that `new` was given to the one that comes back.
#![tactic(auto)]

mod gates;
mod held;
mod plays;
mod stands;
mod steps;
mod views;

pub use gates::{Gate, Pass};
pub use held::Held;
pub use stands::Stands;
