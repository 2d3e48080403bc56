//! All places of a request, each with its number and its moves.
#![tactic(auto)]

mod adjacency;
mod certificates;
mod faults;
mod interned;
mod laws;
mod listed_spots;
mod listings;
mod moves;
mod searches;
mod wanted;
mod ways;

pub use adjacency::Followers;
pub use certificates::{Closed, Member};
pub use faults::{PlacesFault, SpotsFault};
pub use laws::{
    closed_members_exclude_paths, places_may_be_cut, sound_networks_are_asked,
    sound_networks_are_run, spots_bound_places, windows_change_no_places,
};
pub use listed_spots::{MAX_SPOTS, Spots, list_spots};
pub use listings::Places;
pub use moves::{Move, Next};
pub use searches::{places, stop_ahead};
pub use wanted::places_for;
pub use ways::Way;
