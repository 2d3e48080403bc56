//! The claims that stand on each zone with their owners, no two of which clash.
#![tactic(auto)]

mod books;
mod zones;

pub use books::Occupations;
pub use zones::ZoneClaims;
