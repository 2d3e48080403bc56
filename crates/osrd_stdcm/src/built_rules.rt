//! Admission rules of the three kinds in one list, made as words ask for them.

mod making;
mod rules;
mod senses;

pub use making::build_rules;
pub use rules::BuiltRule;
