//! The chain of trains that keeps the last start from being earlier.

ghost use Rattle.std.specs.Prelude.{◌≡◌, ◌↔◌, ℕ, ◌<◌, ◌^◌, ℤ, ◌+ℤ◌, ◌<ℤ◌, ◌≤ℤ◌, length, map, All};
ghost use Rattle.std.specs.Prelude.{IfOk, IsTrue};
ghost use Rattle.rail_types.specs.Limits.{IsNear};
ghost use Rattle.capacity_406.specs.Trains.{AreBeside};
ghost use Rattle.capacity_406.specs.Compression.{IsLastStart};
ghost use Rattle.capacity_406.specs.Chain.{IsChain};
ghost use Rattle.capacity_406.specs.Inside.{AreHeld, IsNearShift, begin_at, first_of, link_of};
ghost use Rattle.capacity_406.specs.Inside.{place_at, shifts_of};

use crate::firsts::first_claim;
use crate::places::Place;
use crate::trains::{Link, Occupied, claims_of};
use no_memory::NoMemory;
use rail_types::Claim;
use std::alloc::Global;

// The links that lead to a train which begins last.
pub(crate) fn chain_to(
    alloc: Global,
    trains: &[Occupied],
    places: &[Place],
    last: u32,
) -> Result<Vec<Link>, NoMemory>
    requires beside { AreBeside trains.now }
    requires places { AreHeld trains.now places.now }
    requires train { last < length trains.now }
    requires last { (tick : ℤ) × IsLastStart trains.now (shifts_of places.now) last tick }
    ensures { IfOk result (λ links. IsChain trains.now (shifts_of places.now) links.items) }
{
    let mut links = Vec::new(alloc);
    let mut train = last;
    while let Some(cause) = places[train as usize].cause {
        links.push(link_at(train, &cause.claim, &places[train as usize]))?;
        train = cause.train;
    }
    let first = first_claim(claims_of(trains, train));
    links.push(link_at(train, &first, &places[train as usize]))?;
    links.reverse();
    Ok(links)
}

fn link_at(train: u32, claim: &Claim, place: &Place) -> Link
    requires near { IsNear claim.now.span.from }
    requires shift { IsNearShift place.now.shift }
    ensures { result ≡ link_of train claim.now place.now }
{
    Link {
        train,
        zone: claim.zone,
        at: claim.span.from + place.shift,
    }
}

// A train that begins last after the shifts.
pub(crate) fn last_train(firsts: &[Claim], places: &[Place]) -> u32
    requires some { (0 < length firsts.now) × (length firsts.now < 2 ^ 32) }
    requires counted { length places.now ≡ length firsts.now }
    requires near { All (λ first. IsNear first.span.from) firsts.now }
    requires shifts { (train : ℕ) → IsNearShift (place_at places.now train).shift }
    ensures bound { result < length firsts.now }
    ensures last { (train : ℕ) → train < length firsts.now →
        begin_at firsts.now places.now train ≤ℤ begin_at firsts.now places.now result }
{
    let mut last = 0u32;
    for train in 0..firsts.len() as u32 {
        let so_far = first_link(firsts, places, last);
        if begins_before(&so_far, &first_link(firsts, places, train)) {
            last = train;
        }
    }
    last
}

// The link of a train's first claim.
fn first_link(firsts: &[Claim], places: &[Place], train: u32) -> Link
    requires train { train < length firsts.now }
    requires counted { length places.now ≡ length firsts.now }
    requires near { All (λ first. IsNear first.span.from) firsts.now }
    requires shifts { (train : ℕ) → IsNearShift (place_at places.now train).shift }
    ensures { result ≡ link_of train (first_of firsts.now train) (place_at places.now train) }
{
    link_at(train, &firsts[train as usize], &places[train as usize])
}

fn begins_before(one: &Link, other: &Link) -> bool
    ensures { IsTrue result ↔ (one.now.at <ℤ other.now.at) }
{
    one.at < other.at
}
