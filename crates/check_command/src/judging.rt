//! A proof, judged by the claims that are live at its front.

ghost use Rattle.std.specs.Prelude.{◌≡◌, ◌≤ℤ◌, None, length, All, IfOk, IfSome};
ghost use Rattle.rail_types.specs.declared.limits.TheConstants.{MAX_PLACES};
ghost use Rattle.rail_types.specs.Flaws.{first_flaw};
ghost use Rattle.rail_types.specs.Limits.{IsRequestWithinLimits, IsSettingsWithinLimits};
ghost use Rattle.refusal_proof.specs.Proofs.{claims_held};
ghost use Rattle.refusal_proof.specs.tails.Following.{AreFollowers};
ghost use Rattle.refusal_proof.specs.tails.Listed.{HasMoreThan};
ghost use Rattle.check_command.specs.Counts.{AreCounted};
ghost use Rattle.check_command.specs.Replays.{IsJudged};

use crate::counts::SpotCounts;
use no_memory::NoMemory;
use path_recover::claims::Occupations;
use proof_texts::Proof;
use rail_types::{Network, Settings, networks_without_flaws};
use refusal_proof::tails::{Followers, PlacesFault, places, places_for, sound_networks_are_asked};
use refusal_proof::{check, check_listed};
use std::alloc::Global;

/// What a proof comes to.
#[derive(Clone, Copy, Debug, PartialEq, Eq)]
pub(crate) enum Judged {
    // It holds.
    Good,
    // Its request has too many places.
    Wide,
    // Its members do not show that no path could be granted.
    Fails,
}

/// Which blocks follow one another in a network.
pub(crate) fn followers_of(alloc: Global, net: &Network) -> Result<Followers, NoMemory>
    requires { first_flaw net.now ≡ None }
    ensures { IfOk result (AreFollowers net.now) }
{
    networks_without_flaws();
    let followers = Followers::new(alloc, net)?;
    Ok(followers)
}

// Judges a proof by all places of its request.
fn judge_by_all(
    alloc: Global,
    net: &Network,
    settings: &Settings,
    book: &Occupations,
    followers: &Followers,
    proof: &Proof,
) -> Result<Judged, NoMemory>
    requires flawless { first_flaw net.now ≡ None }
    requires settings { IsSettingsWithinLimits settings.now }
    requires zones { length book.now ≡ net.now.zones }
    requires followers { AreFollowers net.now followers.now }
    requires request { IsRequestWithinLimits proof.now.request }
    requires windows { All (λ member. member.window.from ≤ℤ member.window.to)
        proof.now.closed.members }
    ensures { IfOk result (IsJudged net.now settings.now (claims_held book.now) proof.now) }
{
    sound_networks_are_asked();
    let request = &proof.request;
    let places = match places(alloc, net, followers, request) {
        Ok(places) => places,
        Err(PlacesFault::Wide { .. }) => return Ok(Judged::Wide),
        Err(PlacesFault::Memory) => return Err(NoMemory),
    };
    if check(alloc, net, settings, book, request, &places, &proof.closed)? {
        Ok(Judged::Good)
    } else {
        Ok(Judged::Fails)
    }
}

// Judges a proof whose request has not too many places by those that its members are at, from the
// start on; None where a member is at no place that is found so, or where memory was wanted.
fn judge_by_members(
    alloc: Global,
    net: &Network,
    settings: &Settings,
    book: &Occupations,
    followers: &Followers,
    proof: &Proof,
) -> Option<Judged>
    requires flawless { first_flaw net.now ≡ None }
    requires settings { IsSettingsWithinLimits settings.now }
    requires zones { length book.now ≡ net.now.zones }
    requires followers { AreFollowers net.now followers.now }
    requires request { IsRequestWithinLimits proof.now.request }
    requires windows { All (λ member. member.window.from ≤ℤ member.window.to)
        proof.now.closed.members }
    requires narrow { ¬ HasMoreThan MAX_PLACES net.now proof.now.request }
    ensures { IfSome result (IsJudged net.now settings.now (claims_held book.now) proof.now) }
{
    sound_networks_are_asked();
    let request = &proof.request;
    let closed = &proof.closed;
    let Ok(places) = places_for(alloc, net, followers, request, closed.members.as_slice()) else {
        return None;
    };
    match check_listed(alloc, net, settings, book, request, &places, closed) {
        Ok(Some(true)) => Some(Judged::Good),
        Ok(Some(false)) => Some(Judged::Fails),
        Ok(None) | Err(NoMemory) => None,
    }
}

/// Judges a proof by the claims of a book. Where the spots of its train tell that its request has
/// not too many places, these are listed as far as the members of the proof lead. Else, and where
/// that tells nothing, all of them are.
pub(crate) fn judge(
    alloc: Global,
    net: &Network,
    settings: &Settings,
    book: &Occupations,
    followers: &Followers,
    counts: &mut SpotCounts,
    proof: &Proof,
) -> Result<Judged, NoMemory>
    requires flawless { first_flaw net.now ≡ None }
    requires settings { IsSettingsWithinLimits settings.now }
    requires zones { length book.now ≡ net.now.zones }
    requires followers { AreFollowers net.now followers.now }
    requires counts { AreCounted net.now counts.old.kept.items }
    requires request { IsRequestWithinLimits proof.now.request }
    requires windows { All (λ member. member.window.from ≤ℤ member.window.to)
        proof.now.closed.members }
    ensures counts { AreCounted net.now counts.new.kept.items }
    ensures judged { IfOk result
        (IsJudged net.now settings.now (claims_held book.now) proof.now) }
{
    if counts.are_few(alloc, net, followers, &proof.request) {
        let judged = judge_by_members(alloc, net, settings, book, followers, proof);
        if let Some(judged) = judged {
            return Ok(judged);
        }
    }
    judge_by_all(alloc, net, settings, book, followers, proof)
}
