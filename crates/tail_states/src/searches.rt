//! The search for the places of a request, from the start place move by move.

ghost use Rattle.std.specs.Prelude.{
  ◌≡◌,
  ◌↔◌,
  ◌<◌,
  ◌≤◌,
  [],
  length,
  Contains,
  IfErr,
  IfOk,
  IsTrue,
  OnOk,
  Some,
  slice_get,
};
ghost use Rattle.rail_types.specs.declared.limits.TheConstants.{MAX_PLACES};
ghost use Rattle.running_time.specs.declared.edges.Edge.TheVariants.{Still as Halted, Rolling};
ghost use Rattle.blocking_time.specs.Runs.{block_at};
ghost use Rattle.stair_pieces.specs.Moves.{IsEnd, IsMove, MayLeave};
ghost use Rattle.stair_pieces.specs.Places.{place_after};
ghost use Rattle.tail_states.specs.Asked.{IsAsked, next_stop};
ghost use Rattle.tail_states.specs.Following.{AreFollowers};
ghost use Rattle.tail_states.specs.Listed.{
  AreMovesFrom,
  AreTheMoves,
  AreThePlaces,
  HasMoreThan,
  LeadsTo,
  Refuses,
};
ghost use Rattle.tail_states.specs.Inside.{
  AddsMoves,
  AddsMove,
  AreFirstMoves,
  AreFound,
  AreMovesAt,
  AreNextBlocks,
  Grows,
  IsAnyPlace,
  IsPlaceFrom,
};

use crate::adjacency::block_of;
use crate::interned::Members;
use crate::{Followers, Move, Next, Places, PlacesFault};
use no_memory::NoMemory;
use rail_types::{Block, List, MAX_PLACES, Network, Request};
use running_time::Edge;
use stair_pieces::{Place, Step};
use std::alloc::Global;

fn serves(block: &Block, stop: u32) -> bool
    ensures { IsTrue result ↔ Contains block.now.serves stop }
{
    block.serves.as_slice().contains(&stop)
}

/// The operational point of the next named stop, or the destination behind the last.
pub fn stop_ahead(request: &Request, made: u32) -> u32
    ensures { result ≡ next_stop request.now made }
{
    match request.stops.get(made as usize) {
        Some(stop) => stop.stop,
        None => request.destination,
    }
}

// Whether a train that has made so many named stops may stop at a block's end.
fn may_halt(request: &Request, made: u32, block: &Block) -> bool
    requires { made ≤ length request.now.stops }
    ensures { IsTrue result ↔ MayLeave request.now made block.now Halted }
{
    serves(block, stop_ahead(request, made))
}

// Whether a step of the request ends the path.
fn ends(request: &Request, place: &Place, step: Step) -> bool
    ensures { IsTrue result ↔ IsEnd request.now place.now step }
{
    step.exit == Edge::Still && place.made as usize == request.stops.len()
}

// The number of the place behind a step of the request that is no end.
fn number_behind(
    alloc: Global,
    net: &Network,
    request: &Request,
    members: &mut Members,
    place: &Place,
    step: Step,
) -> Result<u32, PlacesFault>
    requires asked { IsAsked net.now request.now }
    requires place { IsPlaceFrom net.now request.now place.now }
    requires step { IsMove net.now request.now place.now step }
    requires no_end { ¬ IsEnd request.now place.now step }
    requires found { AreFound net.now request.now members.old }
    ensures at { IfOk result (λ number. slice_get members.new number
        ≡ Some (place_after net.now request.now.train place.now step)) }
    ensures found { OnOk result (AreFound net.now request.now members.new) }
    ensures grown { OnOk result (Grows members.old members.new) }
    ensures wide { IfErr result (Refuses net.now request.now) }
{
    let after = place.after(alloc, net, &request.train, step)?;
    let number = members.intern(after)?;
    let count = members.len();
    if count > MAX_PLACES as usize {
        return Err(PlacesFault::Wide {
            count: count as u32,
        });
    }
    Ok(number as u32)
}

// Where a step of the request leads from a place. The place behind it gets a number.
fn next_of(
    alloc: Global,
    net: &Network,
    request: &Request,
    members: &mut Members,
    place: &Place,
    step: Step,
) -> Result<Next, PlacesFault>
    requires asked { IsAsked net.now request.now }
    requires place { IsPlaceFrom net.now request.now place.now }
    requires step { IsMove net.now request.now place.now step }
    requires found { AreFound net.now request.now members.old }
    ensures leads { IfOk result (λ next.
        LeadsTo net.now request.now members.new place.now step next) }
    ensures found { OnOk result (AreFound net.now request.now members.new) }
    ensures grown { OnOk result (Grows members.old members.new) }
    ensures wide { IfErr result (Refuses net.now request.now) }
{
    if ends(request, place, step) {
        return Ok(Next::End);
    }
    let number = number_behind(alloc, net, request, members, place, step)?;
    Ok(Next::At(number))
}

// Puts a step of the request and where it leads behind the moves.
fn add_move(
    alloc: Global,
    net: &Network,
    request: &Request,
    members: &mut Members,
    place: &Place,
    step: Step,
    moves: &mut List<Move>,
) -> Result<(), PlacesFault>
    requires asked { IsAsked net.now request.now }
    requires place { IsPlaceFrom net.now request.now place.now }
    requires step { IsMove net.now request.now place.now step }
    requires found { AreFound net.now request.now members.old }
    ensures added { OnOk result
        (AddsMove net.now request.now members.new place.now step moves.old moves.new) }
    ensures found { OnOk result (AreFound net.now request.now members.new) }
    ensures grown { OnOk result (Grows members.old members.new) }
    ensures wide { IfErr result (Refuses net.now request.now) }
{
    let next = next_of(alloc, net, request, members, place, step)?;
    moves.push(Move { step, next })?;
    Ok(())
}

// Puts the moves onto a block behind the moves.
fn add_moves(
    alloc: Global,
    net: &Network,
    request: &Request,
    members: &mut Members,
    place: &Place,
    block: u32,
    moves: &mut List<Move>,
) -> Result<(), PlacesFault>
    requires asked { IsAsked net.now request.now }
    requires place { IsPlaceFrom net.now request.now place.now }
    requires block { IsMove net.now request.now place.now
        (record { block = block; exit = Rolling }) }
    requires found { AreFound net.now request.now members.old }
    ensures added { OnOk result
        (AddsMoves net.now request.now members.new place.now block moves.old moves.new) }
    ensures found { OnOk result (AreFound net.now request.now members.new) }
    ensures grown { OnOk result (Grows members.old members.new) }
    ensures wide { IfErr result (Refuses net.now request.now) }
{
    let rolling = Step {
        block,
        exit: Edge::Rolling,
    };
    add_move(alloc, net, request, members, place, rolling, moves)?;
    if may_halt(request, place.made, block_of(net, block)) {
        let halting = Step {
            block,
            exit: Edge::Still,
        };
        add_move(alloc, net, request, members, place, halting, moves)?;
    }
    Ok(())
}

/// The moves of the request from a place onto the blocks that its train may enter.
pub(crate) fn moves_onto(
    alloc: Global,
    net: &Network,
    request: &Request,
    members: &mut Members,
    place: &Place,
    blocks: &[u32],
) -> Result<List<Move>, PlacesFault>
    requires asked { IsAsked net.now request.now }
    requires place { IsPlaceFrom net.now request.now place.now }
    requires blocks { AreNextBlocks net.now request.now place.now.tail blocks.now }
    requires found { AreFound net.now request.now members.old }
    ensures moves { IfOk result (λ moves.
        AreMovesFrom net.now request.now members.new place.now moves) }
    ensures found { OnOk result (AreFound net.now request.now members.new) }
    ensures grown { OnOk result (Grows members.old members.new) }
    ensures wide { IfErr result (Refuses net.now request.now) }
{
    let mut moves = List::new(alloc);
    for block in blocks {
        add_moves(alloc, net, request, members, place, *block, &mut moves)?;
    }
    Ok(moves)
}

/// The blocks that serve the origin.
pub(crate) fn first_blocks<'a>(
    net: &Network,
    request: &Request,
    followers: &'a Followers,
) -> &'a [u32]
    requires asked { IsAsked net.now request.now }
    requires followers { AreFollowers net.now followers.now }
    ensures { AreNextBlocks net.now request.now [] result.now }
{
    followers.serving(request.origin)
}

// The blocks that follow that of the train's head.
fn next_blocks<'a>(
    net: &Network,
    request: &Request,
    followers: &'a Followers,
    place: &Place,
) -> &'a [u32]
    requires asked { IsAsked net.now request.now }
    requires followers { AreFollowers net.now followers.now }
    requires place { IsPlaceFrom net.now request.now place.now }
    requires gone { place.now.tail ≡ [] → ⊥ }
    ensures { AreNextBlocks net.now request.now place.now.tail result.now }
{
    let tail = place.tail.as_slice();
    let head = block_of(net, tail[tail.len() - 1]);
    followers.beginning_at(head.to_point)
}

/// The moves from the place of a number.
pub(crate) fn moves_of(
    alloc: Global,
    net: &Network,
    followers: &Followers,
    request: &Request,
    members: &mut Members,
    number: usize,
) -> Result<List<Move>, PlacesFault>
    requires asked { IsAsked net.now request.now }
    requires followers { AreFollowers net.now followers.now }
    requires found { AreFound net.now request.now members.old }
    requires number { number < length members.old }
    ensures moves { IfOk result (λ moves.
        AreMovesAt net.now request.now members.old number members.new moves) }
    ensures found { OnOk result (AreFound net.now request.now members.new) }
    ensures grown { OnOk result (Grows members.old members.new) }
    ensures wide { IfErr result (Refuses net.now request.now) }
{
    let place = members.get(number).copy(alloc)?;
    let blocks = next_blocks(net, request, followers, &place);
    let moves = moves_onto(alloc, net, request, members, &place, blocks)?;
    Ok(moves)
}

// The moves from each place, those that are found on the way among them.
fn moves_of_all(
    alloc: Global,
    net: &Network,
    followers: &Followers,
    request: &Request,
    members: &mut Members,
) -> Result<Vec<List<Move>>, PlacesFault>
    requires asked { IsAsked net.now request.now }
    requires followers { AreFollowers net.now followers.now }
    requires found { AreFound net.now request.now members.old }
    ensures moves { IfOk result (λ moves.
        AreFirstMoves net.now request.now IsAnyPlace members.new moves.items) }
    ensures all { IfOk result (λ moves. length members.new ≤ length moves.items) }
    ensures found { OnOk result (AreFound net.now request.now members.new) }
    ensures grown { OnOk result (Grows members.old members.new) }
    ensures wide { IfErr result (Refuses net.now request.now) }
{
    let mut moves = Vec::new(alloc);
    while moves.len() < members.len() {
        moves.push(moves_of(alloc, net, followers, request, members, moves.len())?)?;
    }
    Ok(moves)
}

/// The places of a request, with the moves between them.
pub fn places(
    alloc: Global,
    net: &Network,
    followers: &Followers,
    request: &Request,
) -> Result<Places, PlacesFault>
    requires asked { IsAsked net.now request.now }
    requires followers { AreFollowers net.now followers.now }
    ensures places { IfOk result (λ places. AreThePlaces net.now request.now places.members) }
    ensures moves { IfOk result (λ places. AreTheMoves net.now request.now places) }
    ensures few { IfOk result (λ places. length places.members ≤ MAX_PLACES) }
    ensures narrow { IfOk result (λ _. ¬ HasMoreThan MAX_PLACES net.now request.now) }
    ensures wide { IfErr result (Refuses net.now request.now) }
{
    let mut members = Members::new(alloc);
    let first = first_blocks(net, request, followers);
    let start = Place::start(alloc);
    let starts = moves_onto(alloc, net, request, &mut members, &start, first)?;
    let moves = moves_of_all(alloc, net, followers, request, &mut members)?;
    Ok(Places {
        members,
        starts,
        moves,
    })
}
