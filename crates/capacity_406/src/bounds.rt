//! The least shifts.

ghost use Rattle.std.specs.Prelude.{◌≡◌, ℕ, ◌+◌, ◌<◌, ◌≤◌, ◌^◌, ◌+ℤ◌, ◌≤ℤ◌, ◌<ℤ◌, ℤ, pos, neg_ℤ};
ghost use Rattle.std.specs.Prelude.{length, slice_index_or, All, IfOk, Some, None, ◌-ℤ◌, vec_len};
ghost use Rattle.std.specs.Prelude.{IsTrue, ◌↔◌};
ghost use Rattle.std.specs.List.{AllPairs};
ghost use Rattle.rail_types.specs.declared.limits.TheConstants.{FAR_TICK as far};
ghost use Rattle.rail_types.specs.Limits.{IsNear};
ghost use Rattle.capacity_406.specs.Trains.{AreBeside, Has, IsFirstClaim, IsSound, IsStart};
ghost use Rattle.capacity_406.specs.Inside.{AreBounds, AreFirsts, AreLeast, AreStarted, IsCount};
ghost use Rattle.capacity_406.specs.Inside.{IsSettling, AreClear, AreShort, AreTaken, Clears};
ghost use Rattle.capacity_406.specs.Inside.{IsBehind, IsBehindIt, IsClear, IsRaised, KeepsShort};
ghost use Rattle.capacity_406.specs.Inside.{Rise, place_at, taken_by};

use crate::claims::{Taken, next_taken};
use crate::firsts::first_claim;
use crate::places::{Cause, Place};
use crate::trains::{Occupied, claims_of};
use no_memory::NoMemory;
use rail_types::Claim;
use std::alloc::Global;

// The least shifts, with what keeps each train.
pub(crate) fn least_places(
    alloc: Global,
    trains: &[Occupied],
    taken: &[Taken],
    firsts: &[Claim],
) -> Result<Vec<Place>, NoMemory>
    requires beside { AreBeside trains.now }
    requires taken { AreTaken trains.now taken.now }
    requires firsts { AreFirsts trains.now firsts.now }
    requires count { (0 < length trains.now) × (length trains.now < 2 ^ 32) }
    ensures { IfOk result (λ places. AreLeast trains.now taken.now places.items) }
{
    let earliest = first_claim(firsts);
    let mut places = started(alloc, firsts, &earliest)?;
    let mut waiting = numbers(alloc, trains.len() as u32)?;
    settle_all(trains, taken, &mut waiting, places.as_mut_slice());
    Ok(places)
}

// All trains begin with the earliest claim.
fn started(alloc: Global, firsts: &[Claim], earliest: &Claim) -> Result<Vec<Place>, NoMemory>
    requires near { All (λ first. IsNear first.span.from) firsts.now }
    requires earliest { IsFirstClaim firsts.now earliest.now }
    ensures { IfOk result (λ places. AreStarted earliest.now firsts.now places.items) }
{
    let mut places = Vec::new(alloc);
    for first in firsts {
        places.push(started_place(first, earliest))?;
    }
    Ok(places)
}

fn started_place(first: &Claim, earliest: &Claim) -> Place
    requires near { IsNear first.now.span.from × IsNear earliest.now.span.from }
    ensures { result ≡ record {
      shift = earliest.now.span.from -ℤ first.now.span.from;
      links = 0;
      cause = None;
    } }
{
    Place {
        shift: earliest.span.from - first.span.from,
        links: 0,
        cause: None,
    }
}

// The numbers below a count.
fn numbers(alloc: Global, count: u32) -> Result<Vec<u32>, NoMemory>
    ensures { IfOk result (λ all. IsCount count all.items) }
{
    let mut all = Vec::new(alloc);
    for number in 0..count {
        all.push(number)?;
    }
    Ok(all)
}

// Settles one waiting train after the other, each time the one with the greatest shift: no other
// can shift it on.
fn settle_all(trains: &[Occupied], taken: &[Taken], waiting: &mut Vec<u32>, places: &mut [Place])
    requires beside { AreBeside trains.now }
    requires taken { AreTaken trains.now taken.now }
    requires count { length trains.now < 2 ^ 32 }
    requires settling { IsSettling trains.now taken.now waiting.old.items places.old }
    ensures settling { IsSettling trains.now taken.now waiting.new.items places.new }
    ensures done { vec_len waiting.new ≡ 0 }
{
    while !waiting.is_empty() {
        settle_next(trains, taken, waiting, places);
    }
}

fn settle_next(trains: &[Occupied], taken: &[Taken], waiting: &mut Vec<u32>, places: &mut [Place])
    requires some { 0 < vec_len waiting.old }
    requires beside { AreBeside trains.now }
    requires taken { AreTaken trains.now taken.now }
    requires count { length trains.now < 2 ^ 32 }
    requires settling { IsSettling trains.now taken.now waiting.old.items places.old }
    ensures settling { IsSettling trains.now taken.now waiting.new.items places.new }
    ensures fewer { vec_len waiting.new + 1 ≡ vec_len waiting.old }
{
    let train = waiting.swap_remove(last_waiting(waiting.as_slice(), places));
    settle(trains, taken, places, train);
}

// Where the train with the greatest shift waits.
fn last_waiting(waiting: &[u32], places: &[Place]) -> usize
    requires some { 0 < length waiting.now }
    requires places { All (λ train. train < length places.now) waiting.now }
    ensures bound { result < length waiting.now }
    ensures last { All (λ train. (place_at places.now train).shift
        ≤ℤ (place_at places.now (slice_index_or waiting.now result 0)).shift) waiting.now }
{
    let mut last = 0;
    for at in 0..waiting.len() {
        if is_less(
            &places[waiting[last] as usize],
            &places[waiting[at] as usize],
        ) {
            last = at;
        }
    }
    last
}

// Whether the one's shift is less than the other's.
fn is_less(one: &Place, other: &Place) -> bool
    ensures { IsTrue result ↔ (one.now.shift <ℤ other.now.shift) }
{
    one.shift < other.shift
}

// Shifts the trains that follow a train's claims as far as they need.
fn settle(trains: &[Occupied], taken: &[Taken], places: &mut [Place], train: u32)
    requires beside { AreBeside trains.now }
    requires taken { AreTaken trains.now taken.now }
    requires train { train < length trains.now }
    requires links { (place_at places.old train).links + 1 < 2 ^ 32 }
    requires bounds { AreBounds trains.now (place_at places.old train).shift places.old }
    ensures bounds { AreBounds trains.now (place_at places.old train).shift places.new }
    ensures rise { Rise (place_at places.old train).shift places.old places.new }
    ensures clear { AreClear trains.now taken.now places.new train }
    ensures short { KeepsShort (place_at places.old train).links places.old places.new }
{
    for claim in claims_of(trains, train) {
        clear(
            trains,
            taken,
            places,
            &Taken {
                train,
                claim: *claim,
            },
        );
    }
}

// Shifts the train that follows a claim as far as it needs.
fn clear(trains: &[Occupied], taken: &[Taken], places: &mut [Place], one: &Taken)
    requires beside { AreBeside trains.now }
    requires taken { AreTaken trains.now taken.now }
    requires has { Has trains.now one.now.train one.now.claim }
    requires links { (place_at places.old one.now.train).links + 1 < 2 ^ 32 }
    requires bounds { AreBounds trains.now (place_at places.old one.now.train).shift places.old }
    ensures bounds { AreBounds trains.now (place_at places.old one.now.train).shift places.new }
    ensures rise { Rise (place_at places.old one.now.train).shift places.old places.new }
    ensures clear { IsClear taken.now places.new one.now.train one.now.claim }
    ensures short { KeepsShort (place_at places.old one.now.train).links places.old places.new }
{
    if let Some(next) = next_taken(taken, &one.claim) {
        raise(places, one, &next);
    }
}

// Shifts the later train as far as the earlier one needs, if it isn't yet.
fn raise(places: &mut [Place], earlier: &Taken, next: &Taken)
    requires sound { IsSound earlier.now.claim × IsSound next.now.claim }
    requires behind { IsBehind earlier.now.claim next.now }
    requires trains { (earlier.now.train < length places.old)
        × (next.now.train < length places.old) }
    requires near { neg_ℤ (far +ℤ far) ≤ℤ (place_at places.old next.now.train).shift }
    requires near_earlier { neg_ℤ (far +ℤ far) ≤ℤ (place_at places.old earlier.now.train).shift }
    requires early { (place_at places.old earlier.now.train).shift ≤ℤ pos 0 }
    requires links { (place_at places.old earlier.now.train).links + 1 < 2 ^ 32 }
    ensures { IsRaised earlier.now next.now places.old places.new }
{
    let place = place_behind(&places[earlier.train as usize], earlier, next);
    if places[next.train as usize].shift < place.shift {
        places[next.train as usize] = place;
    }
}

fn place_behind(place: &Place, earlier: &Taken, next: &Taken) -> Place
    requires sound { IsSound earlier.now.claim × IsSound next.now.claim }
    requires near { neg_ℤ (far +ℤ far) ≤ℤ place.now.shift }
    requires early { place.now.shift ≤ℤ pos 0 }
    requires links { place.now.links + 1 < 2 ^ 32 }
    ensures { IsBehindIt earlier.now next.now place.now result }
{
    Place {
        shift: place.shift + (earlier.claim.span.to - next.claim.span.from),
        links: place.links + 1,
        cause: Some(Cause {
            train: earlier.train,
            claim: next.claim,
        }),
    }
}
