//! What shows that a request was refused.

use rail_types::Request;
use tail_states::Closed;

/// A request that a line asked for by this number, and members that show that no path of it could
/// be granted at the first entries of a history, so many as `at`.
#[derive(Debug, Drop)]
pub struct Proof {
    pub at: u64,
    pub number: u64,
    pub request: Request,
    pub closed: Closed,
}
