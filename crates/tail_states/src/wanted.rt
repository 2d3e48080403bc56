//! The search for places of a request that goes on from those alone that are wanted.

ghost use Rattle.std.specs.Prelude.{◌<◌, ◌≤◌, length, Contains, IfErr, IfOk, OnOk};
ghost use Rattle.rail_types.specs.declared.limits.TheConstants.{MAX_PLACES};
ghost use Rattle.tail_states.specs.Asked.{IsAsked};
ghost use Rattle.tail_states.specs.Following.{AreFollowers};
ghost use Rattle.tail_states.specs.Listed.{AreSomePlaces, HaveWantedMoves, Refuses};
ghost use Rattle.tail_states.specs.Inside.{
  AreFirstMoves,
  AreFound,
  AreMovesIfWanted,
  AreWantedAmong,
  Grows,
};

use crate::interned::Members;
use crate::searches::{first_blocks, moves_of, moves_onto};
use crate::{Followers, Member, Move, Places, PlacesFault};
use no_memory::NoMemory;
use rail_types::{List, Network, Request};
use stair_pieces::Place;
use std::alloc::Global;

// The places of members, each once.
fn places_of_members(alloc: Global, wanted: &[Member]) -> Result<Members, NoMemory>
    ensures { IfOk result (AreWantedAmong wanted.now) }
{
    let mut places = Members::new(alloc);
    for member in wanted {
        let place = member.place.copy(alloc)?;
        places.intern(place)?;
    }
    Ok(places)
}

// The moves from the place of a number where it is wanted, else none.
fn moves_if_wanted(
    alloc: Global,
    net: &Network,
    followers: &Followers,
    request: &Request,
    wanted: &Members,
    members: &mut Members,
    number: usize,
) -> Result<List<Move>, PlacesFault>
    requires asked { IsAsked net.now request.now }
    requires followers { AreFollowers net.now followers.now }
    requires found { AreFound net.now request.now members.old }
    requires number { number < length members.old }
    ensures moves { IfOk result (λ moves.
        AreMovesIfWanted net.now request.now wanted.now members.old number members.new moves) }
    ensures found { OnOk result (AreFound net.now request.now members.new) }
    ensures grown { OnOk result (Grows members.old members.new) }
    ensures wide { IfErr result (Refuses net.now request.now) }
{
    if !wanted.holds(members.get(number)) {
        return Ok(List::new(alloc));
    }
    let moves = moves_of(alloc, net, followers, request, members, number)?;
    Ok(moves)
}

// The moves from each place that is wanted, those that are found on the way among them; for
// each other one a list without a move.
fn moves_of_wanted(
    alloc: Global,
    net: &Network,
    followers: &Followers,
    request: &Request,
    wanted: &Members,
    members: &mut Members,
) -> Result<Vec<List<Move>>, PlacesFault>
    requires asked { IsAsked net.now request.now }
    requires followers { AreFollowers net.now followers.now }
    requires found { AreFound net.now request.now members.old }
    ensures moves { IfOk result (λ moves.
        AreFirstMoves net.now request.now (Contains wanted.now) members.new moves.items) }
    ensures all { IfOk result (λ moves. length members.new ≤ length moves.items) }
    ensures found { OnOk result (AreFound net.now request.now members.new) }
    ensures grown { OnOk result (Grows members.old members.new) }
    ensures wide { IfErr result (Refuses net.now request.now) }
{
    let mut moves = Vec::new(alloc);
    while moves.len() < members.len() {
        let number = moves.len();
        let own = moves_if_wanted(alloc, net, followers, request, wanted, members, number)?;
        moves.push(own)?;
    }
    Ok(moves)
}

/// The places of a request that are found from the start place on, where moves are worked out from
/// those alone at which there are members: such a place is listed where a train comes to it by
/// other such places. So the work goes by the members, and not by how many places the request has.
/// A place without a member has its number, if a move leads to it, and no moves listed. It is
/// `Wide` only where the request itself is.
pub fn places_for(
    alloc: Global,
    net: &Network,
    followers: &Followers,
    request: &Request,
    wanted: &[Member],
) -> Result<Places, PlacesFault>
    requires asked { IsAsked net.now request.now }
    requires followers { AreFollowers net.now followers.now }
    ensures places { IfOk result (λ places.
        AreSomePlaces net.now request.now places.members) }
    ensures moves { IfOk result (HaveWantedMoves net.now request.now wanted.now) }
    ensures few { IfOk result (λ places. length places.members ≤ MAX_PLACES) }
    ensures wide { IfErr result (Refuses net.now request.now) }
{
    let wanted = places_of_members(alloc, wanted)?;
    let mut members = Members::new(alloc);
    let first = first_blocks(net, request, followers);
    let start = Place::start(alloc);
    let starts = moves_onto(alloc, net, request, &mut members, &start, first)?;
    let moves = moves_of_wanted(alloc, net, followers, request, &wanted, &mut members)?;
    Ok(Places {
        members,
        starts,
        moves,
    })
}
