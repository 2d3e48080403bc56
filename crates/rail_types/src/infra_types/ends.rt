//! The ends of tracks, and directions along them.

/// One of the two ends of a track.
#[derive(Clone, Copy, Debug, PartialEq, Eq)]
pub enum End {
    Begin,
    End,
}

/// A direction along a track: from its begin to its end, or from its end to its begin.
#[derive(Clone, Copy, Debug, PartialEq, Eq)]
pub enum Direction {
    StartToStop,
    StopToStart,
}

/// The directions in which a speed limit applies.
#[derive(Clone, Copy, Debug, PartialEq, Eq)]
pub enum Applies {
    StartToStop,
    StopToStart,
    Both,
}

/// An end of a track, by the track's number.
#[derive(Clone, Copy, Debug, PartialEq, Eq)]
pub struct TrackEnd {
    pub track: u32,
    pub end: End,
}
