//! The spots of a train on a network: its places whatever stops it has made, and the ways between
//! them. They are the same for all requests of the train.

ghost use Rattle.std.specs.Prelude.{
  ◌≡◌,
  ◌≢◌,
  ◌↔◌,
  ◌+◌,
  ◌<◌,
  ◌≤◌,
  [],
  length,
  All,
  IfErr,
  IfOk,
  IsTrue,
  OnOk,
  Some,
  slice_get,
};
ghost use Rattle.running_time.specs.declared.edges.Edge.TheVariants.{Rolling, Still as Halted};
ghost use Rattle.blocking_time.specs.Runs.{block_at};
ghost use Rattle.stair_pieces.specs.Places.{start_place};
ghost use Rattle.tail_states.specs.declared.listed_spots.TheConstants.{MAX_SPOTS};
ghost use Rattle.tail_states.specs.Asked.{HasPoints};
ghost use Rattle.tail_states.specs.Following.{AreFollowers};
ghost use Rattle.tail_states.specs.Inside.{Grows};
ghost use Rattle.tail_states.specs.Spots.{
  AddsWay,
  AddsWays,
  AreBlocksBehind,
  AreFewEnough,
  AreFirstWays,
  AreSpots,
  AreSpotsFound,
  AreWaysAt,
  AreWaysFrom,
  HoldStarts,
  IsSpotFrom,
  IsSpotOf,
  IsStride,
  MayRun,
  RefusesTrain,
  spot_after,
  with_made,
};

use crate::adjacency::block_of;
use crate::interned::Members;
use crate::{Followers, SpotsFault, Way};
use no_memory::NoMemory;
use rail_types::{Block, List, MAX_PLACES, Network, Request, Train};
use running_time::Edge;
use stair_pieces::{Place, Step};
use std::alloc::Global;
use std::marker::Model;

/// Most spots of a train that are listed.
pub const MAX_SPOTS: usize = 16_384;

/// The spots of a train by their numbers, and the ways from each.
#[derive(Drop)]
pub struct Spots {
    members: Members,
    ways: Vec<List<Way>>,
}

impl Model for Spots {
    ghost use Rattle.tail_states.specs.Spots.{Spotted};

    ghost Value = { Spotted };

    ghost view = { λ a. record { spots = a.members; ways = a.ways.items } };
}

impl Spots {
    /// How many spots there are.
    pub fn count(&self) -> usize
        ensures { result ≡ length self.now.spots }
    {
        self.members.len()
    }

    /// The spot of a number.
    pub fn spot(&self, number: u32) -> &Place
        requires { number < length self.now.spots }
        ensures { slice_get self.now.spots number ≡ Some result.now }
    {
        self.members.get(number as usize)
    }

    /// The way that a stride from the start is.
    pub fn start_way(
        &self,
        alloc: Global,
        net: &Network,
        train: &Train,
        step: Step,
    ) -> Result<Way, NoMemory>
        requires may { MayRun net.now train.now }
        requires spots { AreSpots net.now train.now self.now }
        requires few { length self.now.spots ≤ MAX_SPOTS }
        requires step { IsStride net.now start_place step }
        ensures step { IfOk result (λ way. way.step ≡ step) }
        ensures leads { IfOk result (λ way. slice_get self.now.spots way.next
            ≡ Some (spot_after net.now train.now start_place step)) }
    {
        let start = Place::start(alloc);
        let spot = spot_reached(alloc, net, train, &start, step)?;
        let Some(next) = self.members.find(&spot) else {
            unreachable!()
        };
        Ok(Way {
            step,
            next: next as u32,
        })
    }

    /// The ways from the spot of a number.
    pub fn ways(&self, number: u32) -> &[Way]
        requires { number < length self.now.ways }
        ensures { slice_get self.now.ways number ≡ Some result.now }
    {
        self.ways[number as usize].as_slice()
    }

    /// Whether the spots are so few that no request with so many stops has too many places.
    pub fn are_few_enough(&self, request: &Request) -> bool
        ensures { IsTrue result ↔ AreFewEnough request.now self.now }
    {
        let spots = self.count();
        spots == 0 || request.stops.len() < MAX_PLACES as usize / spots
    }
}

// The same place, whatever stops it has made.
fn without_stops(place: Place) -> Place
    ensures { result ≡ with_made place 0 }
{
    Place {
        tail: place.tail,
        entered: place.entered,
        standing: place.standing,
        made: 0,
    }
}

// Whether a path may begin or end, or a stop be made, at a block's end.
fn is_served(block: &Block) -> bool
    ensures { IsTrue result ↔ (block.now.serves ≢ []) }
{
    !block.serves.is_empty()
}

// The number of the spot behind a stride.
fn spot_behind(
    alloc: Global,
    net: &Network,
    train: &Train,
    members: &mut Members,
    spot: &Place,
    step: Step,
) -> Result<u32, SpotsFault>
    requires spot { IsSpotFrom net.now train.now spot.now }
    requires step { IsStride net.now spot.now step }
    requires found { AreSpotsFound net.now train.now members.old }
    ensures at { IfOk result (λ number. slice_get members.new number
        ≡ Some (spot_after net.now train.now spot.now step)) }
    ensures found { OnOk result (AreSpotsFound net.now train.now members.new) }
    ensures grown { OnOk result (Grows members.old members.new) }
    ensures many { IfErr result (RefusesTrain net.now train.now) }
{
    let after = spot_reached(alloc, net, train, spot, step)?;
    let number = members.intern(after)?;
    let count = members.len();
    if count > MAX_SPOTS {
        return Err(SpotsFault::TooMany {
            count: count as u32,
        });
    }
    Ok(number as u32)
}

fn spot_reached(
    alloc: Global,
    net: &Network,
    train: &Train,
    spot: &Place,
    step: Step,
) -> Result<Place, NoMemory>
    requires spot { IsSpotFrom net.now train.now spot.now }
    requires step { IsStride net.now spot.now step }
    ensures value { IfOk result (λ after. after ≡ spot_after net.now train.now spot.now step) }
    ensures is { IfOk result (IsSpotOf net.now train.now) }
{
    let after = spot.after(alloc, net, train, step)?;
    Ok(without_stops(after))
}

// Puts a way behind the others.
fn add_way(
    alloc: Global,
    net: &Network,
    train: &Train,
    members: &mut Members,
    spot: &Place,
    step: Step,
    ways: &mut List<Way>,
) -> Result<(), SpotsFault>
    requires spot { IsSpotFrom net.now train.now spot.now }
    requires step { IsStride net.now spot.now step }
    requires found { AreSpotsFound net.now train.now members.old }
    ensures added { OnOk result (AddsWay net.now train.now members.new spot.now step ways.old
        ways.new) }
    ensures found { OnOk result (AreSpotsFound net.now train.now members.new) }
    ensures grown { OnOk result (Grows members.old members.new) }
    ensures many { IfErr result (RefusesTrain net.now train.now) }
{
    let next = spot_behind(alloc, net, train, members, spot, step)?;
    ways.push(Way { step, next })?;
    Ok(())
}

// Puts the ways onto a block behind the others.
fn add_ways(
    alloc: Global,
    net: &Network,
    train: &Train,
    members: &mut Members,
    spot: &Place,
    block: u32,
    ways: &mut List<Way>,
) -> Result<(), SpotsFault>
    requires spot { IsSpotFrom net.now train.now spot.now }
    requires block { IsStride net.now spot.now (record { block = block; exit = Rolling }) }
    requires found { AreSpotsFound net.now train.now members.old }
    ensures added { OnOk result (AddsWays net.now train.now members.new spot.now block ways.old
        ways.new) }
    ensures found { OnOk result (AreSpotsFound net.now train.now members.new) }
    ensures grown { OnOk result (Grows members.old members.new) }
    ensures many { IfErr result (RefusesTrain net.now train.now) }
{
    let rolling = Step {
        block,
        exit: Edge::Rolling,
    };
    add_way(alloc, net, train, members, spot, rolling, ways)?;
    if is_served(block_of(net, block)) {
        let halting = Step {
            block,
            exit: Edge::Still,
        };
        add_way(alloc, net, train, members, spot, halting, ways)?;
    }
    Ok(())
}

// The ways from a spot onto the blocks that its train may enter.
fn ways_onto(
    alloc: Global,
    net: &Network,
    train: &Train,
    members: &mut Members,
    spot: &Place,
    blocks: &[u32],
) -> Result<List<Way>, SpotsFault>
    requires spot { IsSpotFrom net.now train.now spot.now }
    requires blocks { AreBlocksBehind net.now spot.now.tail blocks.now }
    requires found { AreSpotsFound net.now train.now members.old }
    ensures ways { IfOk result (λ ways.
        AreWaysFrom net.now train.now members.new spot.now ways) }
    ensures found { OnOk result (AreSpotsFound net.now train.now members.new) }
    ensures grown { OnOk result (Grows members.old members.new) }
    ensures many { IfErr result (RefusesTrain net.now train.now) }
{
    let mut ways = List::new(alloc);
    for block in blocks {
        add_ways(alloc, net, train, members, spot, *block, &mut ways)?;
    }
    Ok(ways)
}

// The blocks that follow that of the train's head.
fn blocks_behind<'a>(net: &Network, followers: &'a Followers, spot: &Place) -> &'a [u32]
    requires points { HasPoints net.now }
    requires followers { AreFollowers net.now followers.now }
    requires numbers { All (λ block. block < length net.now.blocks) spot.now.tail }
    requires gone { spot.now.tail ≡ [] → ⊥ }
    ensures { AreBlocksBehind net.now spot.now.tail result.now }
{
    let tail = spot.tail.as_slice();
    let head = block_of(net, tail[tail.len() - 1]);
    followers.beginning_at(head.to_point)
}

// The ways from the spot of a number.
fn ways_of(
    alloc: Global,
    net: &Network,
    followers: &Followers,
    train: &Train,
    members: &mut Members,
    number: usize,
) -> Result<List<Way>, SpotsFault>
    requires may { MayRun net.now train.now }
    requires followers { AreFollowers net.now followers.now }
    requires found { AreSpotsFound net.now train.now members.old }
    requires number { number < length members.old }
    ensures ways { IfOk result (λ ways.
        AreWaysAt net.now train.now members.old number members.new ways) }
    ensures found { OnOk result (AreSpotsFound net.now train.now members.new) }
    ensures grown { OnOk result (Grows members.old members.new) }
    ensures many { IfErr result (RefusesTrain net.now train.now) }
{
    let spot = members.get(number).copy(alloc)?;
    let blocks = blocks_behind(net, followers, &spot);
    let ways = ways_onto(alloc, net, train, members, &spot, blocks)?;
    Ok(ways)
}

// The ways from each spot, those that are found on the way among them.
fn ways_of_all(
    alloc: Global,
    net: &Network,
    followers: &Followers,
    train: &Train,
    members: &mut Members,
) -> Result<Vec<List<Way>>, SpotsFault>
    requires may { MayRun net.now train.now }
    requires followers { AreFollowers net.now followers.now }
    requires found { AreSpotsFound net.now train.now members.old }
    ensures ways { IfOk result (λ ways.
        AreFirstWays net.now train.now members.new ways.items) }
    ensures all { IfOk result (λ ways. length members.new ≤ length ways.items) }
    ensures found { OnOk result (AreSpotsFound net.now train.now members.new) }
    ensures grown { OnOk result (Grows members.old members.new) }
    ensures many { IfErr result (RefusesTrain net.now train.now) }
{
    let mut ways = Vec::new(alloc);
    while ways.len() < members.len() {
        ways.push(ways_of(alloc, net, followers, train, members, ways.len())?)?;
    }
    Ok(ways)
}

// Gives a number to each spot behind the start.
fn add_starts(
    alloc: Global,
    net: &Network,
    train: &Train,
    members: &mut Members,
) -> Result<(), SpotsFault>
    requires may { MayRun net.now train.now }
    requires empty { members.old ≡ [] }
    ensures starts { OnOk result
        (HoldStarts net.now train.now (length net.now.blocks) members.new) }
    ensures found { OnOk result (AreSpotsFound net.now train.now members.new) }
    ensures many { IfErr result (RefusesTrain net.now train.now) }
{
    let start = Place::start(alloc);
    for number in 0..net.blocks.len() {
        add_start(alloc, net, train, members, &start, number as u32)?;
    }
    Ok(())
}

// Gives a number to each spot that a train reaches which begins its path on a block.
fn add_start(
    alloc: Global,
    net: &Network,
    train: &Train,
    members: &mut Members,
    start: &Place,
    block: u32,
) -> Result<(), SpotsFault>
    requires may { MayRun net.now train.now }
    requires start { start.now ≡ start_place }
    requires block { block < length net.now.blocks }
    requires starts { HoldStarts net.now train.now block members.old }
    requires found { AreSpotsFound net.now train.now members.old }
    ensures starts { OnOk result (HoldStarts net.now train.now (block + 1) members.new) }
    ensures found { OnOk result (AreSpotsFound net.now train.now members.new) }
    ensures many { IfErr result (RefusesTrain net.now train.now) }
{
    if !is_served(block_of(net, block)) {
        return Ok(());
    }
    let rolling = Step {
        block,
        exit: Edge::Rolling,
    };
    let halting = Step {
        block,
        exit: Edge::Still,
    };
    spot_behind(alloc, net, train, members, start, rolling)?;
    spot_behind(alloc, net, train, members, start, halting)?;
    Ok(())
}

/// The spots of a train, with the ways between them. Where they are more than `MAX_SPOTS`, it is
/// `TooMany`.
pub fn list_spots(
    alloc: Global,
    net: &Network,
    followers: &Followers,
    train: &Train,
) -> Result<Spots, SpotsFault>
    requires may { MayRun net.now train.now }
    requires followers { AreFollowers net.now followers.now }
    ensures spots { IfOk result (AreSpots net.now train.now) }
    ensures few { IfOk result (λ spots. length spots.spots ≤ MAX_SPOTS) }
    ensures many { IfErr result (RefusesTrain net.now train.now) }
{
    let mut members = Members::new(alloc);
    add_starts(alloc, net, train, &mut members)?;
    let ways = ways_of_all(alloc, net, followers, train, &mut members)?;
    Ok(Spots { members, ways })
}
