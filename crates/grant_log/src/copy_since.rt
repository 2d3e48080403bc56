//! Copies of the claims that are held, kept up with a history: room for what comes is made first,
//! then what was freed is taken out and what stands is held.

mod changes;
mod holding;
mod rooms;
mod since;

pub use changes::{Change, change_of, follow, reserve_change};
pub use since::{bring_up, claims_at, copy_of};
