//! Workers before and after a batch.

use outside_io::Between;
use rail_types::Name;
use served_clients::admission::Rule;

/// A worker: its name, what happens between its searches, and the rules by
/// which its paths may be denied.
#[derive(Drop)]
pub struct Member<B: Between, L: Rule> {
    pub name: Name,
    pub between: B,
    pub rules: Vec<L>,
}

/// A worker that answered lines: how many, and its rules as they are left.
#[derive(Drop)]
pub struct Worked<L: Rule> {
    pub name: Name,
    pub lines: u32,
    pub rules: Vec<L>,
}
