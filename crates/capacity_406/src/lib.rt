//! How much of a stretch's time its trains take, after UIC Code 406: all trains begin as early as
//! their order on the zones lets them.
#![tactic(auto)]

mod bounds;
mod chains;
mod claims;
mod compressions;
mod firsts;
mod laws;
mod places;
mod reports;
pub mod stretch_trains;
mod trains;

pub use compressions::compress;
pub use firsts::first_claim;
pub use laws::{
    capacities_are_told, compressions_compare, limits_are_these,
    selected_trains_stand_beside_each_other,
};
pub use reports::capacity_of;
pub use trains::{CapacityFault, Compressed, Link, Occupied, Stretch};

/// Most trains of one compression.
pub const MAX_TRAINS: u32 = 4_096;
