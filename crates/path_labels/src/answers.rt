//! What a request is answered.

use rail_types::Path;
use tail_states::Closed;

/// A path that leaves last as early as any that can be granted, with what shows that none leaves
/// last earlier; or no path, with what shows that none can be granted.
#[derive(Debug, Drop)]
pub enum Sought {
    Found(Path, Closed),
    NoPath(Closed),
}
