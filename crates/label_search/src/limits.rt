//! What a search may leave out.

ghost use Rattle.std.specs.Prelude.{◌≡◌, [], All};
ghost use Rattle.label_search.specs.Limits.{IsAhead, ahead_at as place_ahead};
ghost use Rattle.label_search.specs.Limits.{ahead_to as next_ahead};

use crate::lent::LentMove;
use crate::plans::Target;
use rail_types::{FAR_TICK, List, Tick};
use std::alloc::Global;

/// The ticks from a place to an end, at least.
#[derive(Clone, Copy, Debug)]
pub struct Ahead {
    pub ticks: Tick,
}

/// What is ahead of each place, nothing where the list has none, and a tick: what cannot
/// end below it may be left out.
#[derive(Debug, Drop)]
pub struct Limits {
    pub ahead: List<Ahead>,
    pub below: Tick,
}

// Limits that leave out nothing.
pub(crate) fn no_limits(alloc: Global) -> Limits
    ensures ahead { result.ahead ≡ [] }
    ensures below { result.below ≡ FAR_TICK }
{
    Limits {
        ahead: List::new(alloc),
        below: FAR_TICK,
    }
}

pub(crate) fn ahead_to(ahead: &List<Ahead>, step: &LentMove) -> Ahead
    requires { All IsAhead ahead.now }
    ensures value { result ≡ next_ahead ahead.now step.now.target }
    ensures ahead { IsAhead result }
{
    match step.target() {
        Target::Place(place) => ahead_at(ahead, place as usize),
        Target::End => Ahead { ticks: 0 },
    }
}

pub(crate) fn ahead_at(ahead: &List<Ahead>, place: usize) -> Ahead
    requires { All IsAhead ahead.now }
    ensures value { result ≡ place_ahead ahead.now place }
    ensures ahead { IsAhead result }
{
    match ahead.get(place) {
        Some(ticks) => *ticks,
        None => Ahead { ticks: 0 },
    }
}
