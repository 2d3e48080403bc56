//! Whether members show that no path of a request can be granted.

ghost use Rattle.std.specs.Prelude.{◌≡◌, ◌↔◌, ◌<◌, ◌≤◌, ◌^◌, ◌≤ℤ◌, length, None, Some, All};
ghost use Rattle.std.specs.Prelude.{AllPairs, Contains, IfOk, IfSome, IsNone, IsTrue, slice_get};
ghost use Rattle.rail_types.specs.declared.limits.TheConstants.{MAX_PLACES};
ghost use Rattle.rail_types.specs.Flaws.{first_flaw};
ghost use Rattle.rail_types.specs.Limits.{IsRequestWithinLimits, IsSettingsWithinLimits};
ghost use Rattle.occupation_book.specs.Held.{held};
ghost use Rattle.blocking_time.specs.Possible.{IsPossible};
ghost use Rattle.stair_pieces.specs.Moves.{IsInside};
ghost use Rattle.stair_pieces.specs.Places.{start_place};
ghost use Rattle.stair_pieces.specs.Steps.{IsPlaceIn};
ghost use Rattle.tail_states.specs.Listed.{AreSomePlaces, AreTheMoves, AreThePlaces};
ghost use Rattle.tail_states.specs.Listed.{HaveWantedMoves};
ghost use Rattle.refusal_proof.specs.Proofs.{IsProof, claims_held};
ghost use Rattle.refusal_proof.specs.Inside.{
  AreLabels,
  HasMovesAt,
  HaveLabelMoves,
  IsClaimIn,
  LabelPasses,
  MovePasses,
  ReachesLess,
  StepsPass,
  members_of,
};

use crate::goings::{GoingFrom, at_once, going_on};
use crate::labels::{Label, labels_of};
use crate::moves::move_passes;
use no_memory::NoMemory;
use occupation_book::Occupations;
use rail_types::{Network, Request, Settings};
use stair_pieces::Place;
use std::alloc::Global;
use tail_states::{
    Closed, Move, Places, closed_members_exclude_paths, places_may_be_cut, sound_networks_are_asked,
};

// Whether each of these moves passes.
fn moves_pass(
    alloc: Global,
    net: &Network,
    settings: &Settings,
    book: &Occupations,
    request: &Request,
    labels: &[Label],
    onward: &GoingFrom<'_>,
    moves: &[Move],
) -> Result<bool, NoMemory>
    requires flawless { first_flaw net.now ≡ None }
    requires settings { IsSettingsWithinLimits settings.now }
    requires zones { length book.now ≡ net.now.zones }
    requires request { IsRequestWithinLimits request.now }
    requires order { AllPairs ReachesLess labels.now }
    requires going { All (IsClaimIn (length book.now)) onward.now.going.now.claims }
    requires place { IsPlaceIn net.now settings.now request.now.train onward.now.place.now }
    requires made { onward.now.place.now.made < 2 ^ 31 }
    requires steps { All (λ one. one.step.block < length net.now.blocks) moves.now }
    ensures { IfOk result (λ yes. IsTrue yes ↔ All (MovePasses net.now settings.now request.now
        (held book.now) labels.now onward.now.going.now onward.now.place.now) moves.now) }
{
    for one in moves {
        if !move_passes(alloc, net, settings, book, request, labels, onward, one)? {
            return Ok(false);
        }
    }
    Ok(true)
}

// Whether what each free move from the start in the window of departure leads to is held.
fn starts_pass(
    alloc: Global,
    net: &Network,
    settings: &Settings,
    book: &Occupations,
    request: &Request,
    places: &Places,
    labels: &[Label],
) -> Result<bool, NoMemory>
    requires flawless { first_flaw net.now ≡ None }
    requires settings { IsSettingsWithinLimits settings.now }
    requires zones { length book.now ≡ net.now.zones }
    requires request { IsRequestWithinLimits request.now }
    requires places { AreSomePlaces net.now request.now places.now.members }
    requires moves { HaveLabelMoves net.now request.now places.now labels.now }
    requires labels { AreLabels places.now.members labels.now }
    ensures { IfOk result (λ yes. IsTrue yes ↔ StepsPass net.now settings.now request.now
        (claims_held book.now) (members_of places.now.members labels.now)
        (IsInside request.now.depart) start_place) }
{
    sound_networks_are_asked();
    places_may_be_cut();
    let start = Place::start(alloc);
    let going = at_once(alloc, &request.depart);
    let moves = places.starts();
    let onward = GoingFrom {
        place: &start,
        going: &going,
    };
    let passes = moves_pass(alloc, net, settings, book, request, labels, &onward, moves)?;
    Ok(passes)
}

// Whether what each free move from a place within a window leads to is held.
fn label_passes(
    alloc: Global,
    net: &Network,
    settings: &Settings,
    book: &Occupations,
    request: &Request,
    places: &Places,
    labels: &[Label],
    label: &Label,
) -> Result<bool, NoMemory>
    requires flawless { first_flaw net.now ≡ None }
    requires settings { IsSettingsWithinLimits settings.now }
    requires zones { length book.now ≡ net.now.zones }
    requires request { IsRequestWithinLimits request.now }
    requires places { AreSomePlaces net.now request.now places.now.members }
    requires moves { HaveLabelMoves net.now request.now places.now labels.now }
    requires labels { AreLabels places.now.members labels.now }
    requires number { label.now.number < length places.now.members }
    requires here { HasMovesAt net.now request.now places.now label.now.number }
    requires some { label.now.window.from ≤ℤ label.now.window.to }
    ensures { IfOk result (λ yes. IsTrue yes ↔ LabelPasses net.now settings.now request.now
        (claims_held book.now) places.now.members labels.now label.now) }
{
    sound_networks_are_asked();
    places_may_be_cut();
    let place = places.place(label.number);
    let going = going_on(alloc, net, settings, book, request, place, &label.window)?;
    let moves = places.moves(label.number);
    let onward = GoingFrom {
        place,
        going: &going,
    };
    let passes = moves_pass(alloc, net, settings, book, request, labels, &onward, moves)?;
    Ok(passes)
}

fn labels_pass(
    alloc: Global,
    net: &Network,
    settings: &Settings,
    book: &Occupations,
    request: &Request,
    places: &Places,
    labels: &[Label],
) -> Result<bool, NoMemory>
    requires flawless { first_flaw net.now ≡ None }
    requires settings { IsSettingsWithinLimits settings.now }
    requires zones { length book.now ≡ net.now.zones }
    requires request { IsRequestWithinLimits request.now }
    requires places { AreSomePlaces net.now request.now places.now.members }
    requires moves { HaveLabelMoves net.now request.now places.now labels.now }
    requires labels { AreLabels places.now.members labels.now }
    ensures { IfOk result (λ yes. IsTrue yes ↔ All (LabelPasses net.now settings.now request.now
        (claims_held book.now) places.now.members labels.now) labels.now) }
{
    for label in labels {
        if !label_passes(alloc, net, settings, book, request, places, labels, label)? {
            return Ok(false);
        }
    }
    Ok(true)
}

/// What `check` tells, by places of the request that are listed for these members with the moves
/// from them alone (`places_for`); None exactly where the place of a member is not listed. That is
/// enough: a move to a place without a member may not be free, whatever leads on from there.
pub fn check_listed(
    alloc: Global,
    net: &Network,
    settings: &Settings,
    book: &Occupations,
    request: &Request,
    places: &Places,
    proof: &Closed,
) -> Result<Option<bool>, NoMemory>
    requires flawless { first_flaw net.now ≡ None }
    requires settings { IsSettingsWithinLimits settings.now }
    requires zones { length book.now ≡ net.now.zones }
    requires request { IsRequestWithinLimits request.now }
    requires places { AreSomePlaces net.now request.now places.now.members }
    requires moves { HaveWantedMoves net.now request.now proof.now.members places.now }
    requires few { length places.now.members ≤ MAX_PLACES }
    requires windows { All (λ member. member.window.from ≤ℤ member.window.to) proof.now.members }
    ensures exact { IfOk result (λ told. IfSome told (λ yes. IsTrue yes
        ↔ IsProof net.now settings.now (claims_held book.now) request.now proof.now)) }
    ensures sound { IfOk result (λ told. IfSome told (λ yes. IsTrue yes
        → ¬ IsPossible net.now settings.now (claims_held book.now) request.now)) }
    ensures listed { IfOk result (λ told. IfSome told (λ _.
        All (λ member. Contains places.now.members member.place) proof.now.members)) }
    ensures none { IfOk result (λ told. IsNone told
        → ¬ All (λ member. Contains places.now.members member.place) proof.now.members) }
{
    // These laws say that closed members exclude all paths, and that the
    // claims of a book have ticks.
    closed_members_exclude_paths();
    book.zones();
    let Some(labels) = labels_of(alloc, places, proof.members.as_slice())? else {
        return Ok(None);
    };
    let labels = labels.as_slice();
    if !starts_pass(alloc, net, settings, book, request, places, labels)? {
        return Ok(Some(false));
    }
    let passes = labels_pass(alloc, net, settings, book, request, places, labels)?;
    Ok(Some(passes))
}

/// Whether these members show that no path of a request can be granted beside what the book
/// holds: each is at one of the request's places, and they hold whatever a free move from the
/// start in the window of departure, or from a member, leads to, while no free end lies in
/// the window of arrival. The search has no part in it: of the moves each is tried at the
/// ticks of a member's window, claim by claim of the book and label by label of the members,
/// each found by a binary search.
pub fn check(
    alloc: Global,
    net: &Network,
    settings: &Settings,
    book: &Occupations,
    request: &Request,
    places: &Places,
    proof: &Closed,
) -> Result<bool, NoMemory>
    requires flawless { first_flaw net.now ≡ None }
    requires settings { IsSettingsWithinLimits settings.now }
    requires zones { length book.now ≡ net.now.zones }
    requires request { IsRequestWithinLimits request.now }
    requires places { AreThePlaces net.now request.now places.now.members }
    requires moves { AreTheMoves net.now request.now places.now }
    requires few { length places.now.members ≤ MAX_PLACES }
    requires windows { All (λ member. member.window.from ≤ℤ member.window.to) proof.now.members }
    ensures exact { IfOk result (λ yes. IsTrue yes
        ↔ IsProof net.now settings.now (claims_held book.now) request.now proof.now) }
    ensures sound { IfOk result (λ yes. IsTrue yes
        → ¬ IsPossible net.now settings.now (claims_held book.now) request.now) }
{
    // All places are listed: one that is not is none of the request's.
    match check_listed(alloc, net, settings, book, request, places, proof)? {
        Some(yes) => Ok(yes),
        None => Ok(false),
    }
}
