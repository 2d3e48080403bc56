//! The rules of a client: what they are asked and told, by the entries of a history.

mod clients;
mod denials;
mod tellings;
mod wishes;

pub use clients::{ClientRules, take_rules};
pub use denials::first_denial;
pub use tellings::{tell_freed, tell_granted};
pub use wishes::{asked_wish, given_wish, wish_of};
