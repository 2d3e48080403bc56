//! What is asked, within the limits.

ghost use Rattle.std.specs.Prelude.{◌≡◌, ◌≤◌, None, length, All, IfOk, IfSome, IsTrue};
ghost use Rattle.rail_types.specs.declared.limits.TheConstants.{MAX_DWELL, MAX_PLACES, MAX_STOPS};
ghost use Rattle.rail_types.specs.Flaws.{first_flaw};
ghost use Rattle.rail_types.specs.Limits.{
  IsClaimWithinLimits,
  IsRequestWithinLimits,
  IsSettingsWithinLimits,
  IsTrainWithinLimits,
  IsWindowWithinLimits,
};
ghost use Rattle.tail_states.specs.Listed.{AreTheMoves, AreThePlaces};

use no_memory::NoMemory;
use occupation_book::Occupations;
use rail_types::{
    Block, Cell, Claim, List, MAX_DWELL, MAX_STOPS, Name, Network, Owner, Request, Settings, Span,
    Stop, Train, Window, is_tick,
};
use std::alloc::Global;
use tail_states::{Followers, Places, PlacesFault, places, sound_networks_are_asked};

/// Settings of 10 s a tick.
pub fn settings(setting: u32, release: u32, horizon: u32, speed_loss: bool) -> Settings
    ensures { IsSettingsWithinLimits result }
{
    Settings {
        tick_s: 10,
        setting: setting.min(1_000),
        release: release.min(1_000),
        horizon: horizon.max(1).min(17_280),
        journal_bytes: 268_435_456,
        speed_loss,
    }
}

/// A train that gains 200 mm/s in a second and loses 250.
pub fn train(alloc: Global, length_m: u32, speed: u32) -> Result<Train, NoMemory>
    ensures { IfOk result IsTrainWithinLimits }
{
    Ok(Train {
        name: Name::from_bytes(alloc, b"F")?,
        length_m: length_m.max(1).min(5_000),
        speed: speed.max(1).min(200_000),
        accel: 200,
        brake: 250,
        allowance: 0,
    })
}

fn window(from: u32, to: u32) -> Window
    ensures { IsWindowWithinLimits result }
{
    Window {
        from: i64::from(from.min(100_000)),
        to: i64::from(to.min(100_000)),
    }
}

/// From the operational point of a number to that of another, within
/// windows of departure and arrival.
#[derive(Drop)]
pub struct Trip {
    pub origin: u32,
    pub destination: u32,
    pub depart: (u32, u32),
    pub arrive: (u32, u32),
}

fn are_stops(stops: &List<Stop>) -> bool
    ensures count { IsTrue result → length stops.now ≤ MAX_STOPS }
    ensures dwells { IsTrue result → All (λ stop. stop.dwell ≤ MAX_DWELL) stops.now }
{
    stops.len() <= MAX_STOPS as usize && stops.as_slice().iter().all(|stop| stop.dwell <= MAX_DWELL)
}

/// A request of a train for a trip, with these stops between. None where the
/// stops are past their limits.
pub fn request(
    alloc: Global,
    train: &Train,
    trip: &Trip,
    stops: &[Stop],
) -> Result<Option<Request>, NoMemory>
    requires { IsTrainWithinLimits train.now }
    ensures { IfOk result (λ made. IfSome made IsRequestWithinLimits) }
{
    let stops = List::from_vec(Vec::from_slice(alloc, stops)?);
    if !are_stops(&stops) {
        return Ok(None);
    }
    Ok(Some(Request {
        train: train.copy(alloc)?,
        origin: trip.origin,
        destination: trip.destination,
        depart: window(trip.depart.0, trip.depart.1),
        arrive: window(trip.arrive.0, trip.arrive.1),
        stops,
    }))
}

/// A block by its length, speed and sight distance, its cells by zone and release point, the points
/// at which it begins and ends, and the operational points that it serves.
pub fn block(
    alloc: Global,
    sizes: [u32; 3],
    cells: &[(u32, u32)],
    ends: (u32, u32),
    serves: &[u32],
) -> Result<Block, NoMemory> {
    let mut passages = List::new(alloc);
    for (zone, release_m) in cells {
        passages.push(Cell {
            zone: *zone,
            release_m: *release_m,
        })?;
    }
    Ok(Block {
        length_m: sizes[0],
        speed: sizes[1],
        sight_m: sizes[2],
        cells: passages,
        from_point: ends.0,
        to_point: ends.1,
        serves: List::from_vec(Vec::from_slice(alloc, serves)?),
    })
}

/// The book of a network that holds these claims, but those that clash with one before them.
pub fn book_of(alloc: Global, net: &Network, claims: &[Claim]) -> Result<Occupations, NoMemory>
    ensures { IfOk result (λ book. length book ≡ net.now.zones) }
{
    let mut book = Occupations::new(alloc, net.zones)?;
    for claim in claims {
        hold(&mut book, claim)?;
    }
    if book.zones() != net.zones {
        return Err(NoMemory);
    }
    Ok(book)
}

fn hold(book: &mut Occupations, claim: &Claim) -> Result<(), NoMemory> {
    if !has_ticks(claim) || claim.zone >= book.zones() {
        return Ok(());
    }
    book.reserve(claim.zone, 1)?;
    if book.free(claim) {
        book.insert(*claim, Owner::Base(0));
    }
    Ok(())
}

fn has_ticks(claim: &Claim) -> bool
    ensures { IsTrue result → IsClaimWithinLimits claim.now }
{
    is_tick(&claim.span.from) && is_tick(&claim.span.to) && claim.span.from < claim.span.to
}

/// A claim of a zone for the ticks from one on and before another.
pub fn claim(zone: u32, from: i64, to: i64) -> Claim {
    Claim {
        zone,
        span: Span { from, to },
    }
}

/// The places of a request.
pub fn listed(alloc: Global, net: &Network, request: &Request) -> Result<Places, PlacesFault>
    requires flawless { first_flaw net.now ≡ None }
    requires request { IsRequestWithinLimits request.now }
    ensures places { IfOk result (λ listed. AreThePlaces net.now request.now listed.members) }
    ensures moves { IfOk result (λ listed. AreTheMoves net.now request.now listed) }
    ensures few { IfOk result (λ listed. length listed.members ≤ MAX_PLACES) }
{
    sound_networks_are_asked();
    let followers = Followers::new(alloc, net)?;
    match places(alloc, net, &followers, request) {
        Ok(listed) => Ok(listed),
        Err(fault) => Err(fault),
    }
}
