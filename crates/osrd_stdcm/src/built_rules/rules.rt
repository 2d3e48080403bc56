//! A rule of any of the three kinds.

use admission_rules::{Curfew, Longest, Quota};

/// A rule of one of the three kinds: what it says and keeps is what the rule in it does.
#[derive(Debug, Drop)]
pub enum BuiltRule {
    /// A number of paths that a client may have at once.
    Quota(Quota),
    /// Ticks at which a client's trains may not depart.
    Curfew(Curfew),
    /// The length that a client's trains may have.
    Longest(Longest),
}
