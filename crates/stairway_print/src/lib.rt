//! Tables as text: a network with the names of its parts, and the stairway of a path.
#![tactic(auto)]

mod blocks;
mod networks;
mod stairs;
mod words;
mod zones;

pub use networks::network_table;
pub use stairs::stairs_table;
