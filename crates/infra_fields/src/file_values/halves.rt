//! The halves in which a file's lists are read.

ghost use Rattle.std.specs.Prelude.{◌≡◌};
ghost use Rattle.infra_fields.specs.Kept.{is_first, is_in, is_second};

/// A half of a file's lists: what is made of one can go before the other is read.
#[derive(Clone, Copy, Debug, PartialEq, Eq)]
pub enum Half {
    /// `track_sections`, `switches`, `detectors`, `buffer_stops` and `signals`.
    First,
    /// `routes`, `operational_points` and `speed_sections`.
    Second,
}

/// Whether a half has the list at this key.
pub(crate) fn is_in(half: Half, key: &str) -> bool
    ensures { result ≡ is_in half key.now }
{
    match half {
        Half::First => is_first(key),
        Half::Second => is_second(key),
    }
}

fn is_first(key: &str) -> bool
    ensures { result ≡ is_first key.now }
{
    key == "track_sections"
        || key == "switches"
        || key == "detectors"
        || key == "buffer_stops"
        || key == "signals"
}

fn is_second(key: &str) -> bool
    ensures { result ≡ is_second key.now }
{
    key == "routes" || key == "operational_points" || key == "speed_sections"
}
