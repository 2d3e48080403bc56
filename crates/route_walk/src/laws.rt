//! What holds of all walks.

ghost use Rattle.route_walk.specs.Walks.{FaultsAreOne, WalksAreOne, WalkOrFault};

/// A route has one walk, or one fault besides want of memory.
pub fn one_walk()
    ensures walks { WalksAreOne }
    ensures faults { FaultsAreOne }
    ensures either { WalkOrFault }
{}
