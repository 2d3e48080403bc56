//! The network of an infrastructure: the signal blocks between the signals along its routes, with
//! the names of operational points, blocks and zones.
#![tactic(auto)]

pub mod block_cuts;
mod fault_texts;
mod faults;
mod lines;
mod names;
mod networks;
mod posts;
mod railways;
mod zones;

pub use crate::block_cuts::What;
pub use fault_texts::fault_text;
pub use faults::{NetFault, RouteFault};
pub use networks::network_of;
pub use rail_types::named_network::{BlockName, Named, TrackPiece, ZoneName};
