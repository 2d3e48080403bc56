//! The list of a batch: its lines read as a whole, the numbers by which they ask, and the
//! first of them that no batch has.

mod asks;
mod laws;
mod lists;
mod numbers;

pub use asks::first_no_ask;
pub use laws::numbers_are_one;
pub use lists::{ListFault, read_list};
pub use numbers::{first_twice, numbers_of};
