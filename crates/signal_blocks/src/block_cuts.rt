//! Walks of routes, cut into signal blocks: where a walk is cut, its blocks with their cells,
//! speeds, sight distances and served operational points, and why walks have none.

mod blocks;
mod cells;
mod cuts;
mod faults;
mod lines;
mod networks;
mod rows;
mod served;
mod speeds;

pub use cuts::block_count;
pub use faults::{Fault, Railway, What, fault_of};
pub use lines::{Lines, SpeedRange, StopPart};
pub use networks::network_of;
pub use rows::{ByRow, InRow};
