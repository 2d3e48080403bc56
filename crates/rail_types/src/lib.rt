//! The plain types of the server: track, trains, paths, occupations and the entries of
//! its history, with their limits.
#![tactic(auto)]

mod bases;
mod claim_lists;
mod entries;
mod flaws;
mod forms;
pub mod id_lists;
pub mod infra_types;
mod kept_requests;
mod laws;
mod limits;
mod lists;
pub mod named_network;
mod names;
mod paths;
mod tracks;
mod trains;

pub use bases::{Base, BaseClaim};
pub use claim_lists::Claims;
pub use entries::{Deed, Entry, Owner, Settings, Wanted};
pub use forms::{is_client_name, is_name_byte, is_tick};
pub use kept_requests::KeptRequest;
pub use laws::{
    clashes_share_a_tick, first_clashes_are_first, flaws_are_told_apart, limits_are_these,
    networks_without_flaws, tests_are_facts,
};
pub use limits::{
    FAR_TICK, MAX_ACCEL_MM_S2, MAX_ALLOWANCE_PERCENT, MAX_BASE_CLAIMS, MAX_BLOCK_LENGTH_M,
    MAX_CELLS, MAX_DWELL, MAX_HOLD_CLAIMS, MAX_HORIZON, MAX_ID_BYTES, MAX_JOURNAL_BYTES,
    MAX_NETWORK_FILE_BYTES, MAX_NUMBER, MAX_OBJECTS, MAX_OWNER_BYTES, MAX_PINNED_RUNS, MAX_PLACES,
    MAX_REASON_BYTES, MAX_RELEASE, MAX_SETTING, MAX_SIGHT_M, MAX_SPEED_MM_S, MAX_STOPS, MAX_TICK,
    MAX_TICK_S, MAX_TIMETABLE_FILE_BYTES, MAX_TRACK_LENGTH_M, MAX_TRAIN_LENGTH_M,
    MAX_TRAIN_NAME_BYTES, MAX_TRAINS, MIN_JOURNAL_BYTES,
};
pub use lists::List;
pub use names::Name;
pub use paths::{Claim, Path, Run, Span, Tick, Window};
pub use tracks::{Block, Cell, NetFlaw, Network};
pub use trains::{Request, Stop, Train};
