//! The claims of a train's steps, and the laws that join them to the stairway of its path.
#![tactic(auto)]

mod claims;
mod laws;
mod places;
mod tail_blocks;

pub use claims::{entry, pieces, standing};
pub use laws::{
    a_path_fits_run_by_run, a_path_is_a_list_of_moves, moves_make_a_path, pieces_are_claims,
    steps_are_the_stairway, tails_are_longest,
};
pub use places::{Place, Step};
pub use tail_blocks::Tail;
