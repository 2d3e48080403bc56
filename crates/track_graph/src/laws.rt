//! What holds of all layouts.

ghost use Rattle.track_graph.specs.Zones.{ZonesAreOne};

/// Pieces have their zones in one way: two numberings by first pieces are the same.
pub fn one_numbering()
    ensures { ZonesAreOne }
{}
