//! Claims gathered by their owners.

ghost use Rattle.std.specs.Prelude.{◌≡◌, ◌<◌, ◌≤◌, ◌++◌, ◌∷◌, [], ◌⊎◌, ◌↔◌, length, map, take};
ghost use Rattle.std.specs.Prelude.{drop, All, AllPairs, IfOk, IsTrue, OnOk};
ghost use Rattle.rail_types.specs.declared.entries.Owner.{Owner as owner_type};
ghost use Rattle.capacity_406.specs.Selecting.{BeginsWithin};
ghost use Rattle.capacity_406.specs.Trains.{IsFirstClaim};
ghost use Rattle.capacity_406.specs.InsideStretch.{AreGrouped, IsOf, OwnerNoLater, Runs};

use crate::{Stretch, first_claim};
use no_memory::NoMemory;
use rail_types::{Claim, List, Owner};
use std::alloc::Global;

/// A train, its claims on a stretch, and the first of them.
#[derive(Drop)]
pub(crate) struct Standing {
    pub(crate) first: Claim,
    pub(crate) owner: Owner,
    pub(crate) claims: List<Claim>,
}

// The trains with a claim that begins in the window, each with all its claims.
pub(crate) fn group(
    alloc: Global,
    taken: &[(Claim, Owner)],
    stretch: &Stretch,
) -> Result<Vec<Standing>, NoMemory>
    requires sorted { AllPairs OwnerNoLater taken.now }
    ensures { IfOk result (λ standing. AreGrouped stretch.now taken.now standing.items) }
{
    let mut standing = Vec::new(alloc);
    let mut rest = taken;
    while !rest.is_empty() {
        let (block, others) = rest.split_at(count_of_first(rest));
        let one = standing_of(alloc, block)?;
        push_if_runs(&mut standing, one, stretch)?;
        rest = others;
    }
    Ok(standing)
}

// How many claims at the front are of the first one's owner.
fn count_of_first(rest: &[(Claim, Owner)]) -> usize
    requires some { 0 < length rest.now }
    requires sorted { AllPairs OwnerNoLater rest.now }
    ensures some { 0 < result }
    ensures bound { result ≤ length rest.now }
    ensures parted { (owner : owner_type) × All (IsOf owner) (take result rest.now)
        × All (λ one. ¬ IsOf owner one) (drop result rest.now) }
{
    let owner = rest[0].1;
    for count in 1..rest.len() {
        if rest[count].1 != owner {
            return count;
        }
    }
    rest.len()
}

// The claims of one owner.
fn standing_of(alloc: Global, block: &[(Claim, Owner)]) -> Result<Standing, NoMemory>
    requires { 0 < length block.now }
    ensures claims { IfOk result (λ one. one.claims ≡ map (λ held. held.0) block.now) }
    ensures owner { IfOk result (λ one. (owner : owner_type) → All (IsOf owner) block.now →
        one.owner ≡ owner) }
    ensures first { IfOk result (λ one. IsFirstClaim one.claims one.first) }
{
    let claims = claims_of(alloc, block)?;
    Ok(Standing {
        first: first_claim(claims.as_slice()),
        owner: block[0].1,
        claims,
    })
}

fn claims_of(alloc: Global, block: &[(Claim, Owner)]) -> Result<List<Claim>, NoMemory>
    ensures { IfOk result (λ claims. claims ≡ map (λ held. held.0) block.now) }
{
    let mut claims = List::new(alloc);
    for one in block {
        claims.push(one.0)?;
    }
    Ok(claims)
}

fn push_if_runs(
    standing: &mut Vec<Standing>,
    one: Standing,
    stretch: &Stretch,
) -> Result<(), NoMemory>
    ensures { OnOk result (
        (Runs stretch.now one.claims × (standing.new.items ≡ standing.old.items ++ one ∷ []))
        ⊎ ((¬ Runs stretch.now one.claims) × (standing.new.items ≡ standing.old.items))) }
{
    if runs(one.claims.as_slice(), stretch) {
        standing.push(one)?;
    }
    Ok(())
}

// Whether one of the claims begins in the window.
#[tactic(auto, using(crate::proofs::Grouping::none_runs, crate::proofs::Grouping::one_runs))]
fn runs(claims: &[Claim], stretch: &Stretch) -> bool
    ensures { IsTrue result ↔ Runs stretch.now claims.now }
{
    for claim in claims {
        if begins_within(stretch, claim) {
            return true;
        }
    }
    false
}

fn begins_within(stretch: &Stretch, claim: &Claim) -> bool
    ensures { IsTrue result ↔ BeginsWithin stretch.now claim.now }
{
    i64::from(stretch.from) <= claim.span.from && claim.span.from < i64::from(stretch.to)
}
