//! Copies brought up by the entries since they were made.

ghost use Rattle.std.specs.Prelude.{◌≡◌, ◌≢◌, ◌↔◌, ◌<◌, ◌≤◌, ◌∷◌, ◌++◌, [], ℕ, All, Contains};
ghost use Rattle.std.specs.Prelude.{IfOk, IfSome, IsNone, OnErr, OnOk, length, take};
ghost use Rattle.rail_types.specs.declared.entries.Deed.TheVariants.{Free as deed_free};
ghost use Rattle.rail_types.specs.declared.entries.Owner.TheVariants.{Entry as of_entry};
ghost use Rattle.rail_types.specs.Occupation.{HeldClaim};
ghost use Rattle.rail_types.specs.Timetables.{base_claims};
ghost use Rattle.occupation_book.specs.Held.{AreOnZonesOf, claims_by_zone, held, zone_at};
ghost use Rattle.grant_log.specs.Following.{AreLive};
ghost use Rattle.grant_log.specs.Live.{owned_by};
ghost use Rattle.grant_log.specs.Since.{AreFreedBelow, brought_since};
ghost use Rattle.grant_log.specs.Since.{claims_at as claims_standing_at};

use crate::copy_since::holding::{hold_all, hold_in_order};
use crate::copy_since::rooms::reserve_for;
use crate::{
    History, claims_are_on_the_network, grants_keep_their_requests, legal_histories_never_clash,
    live_claims_follow,
};
use no_memory::NoMemory;
use occupation_book::Occupations;
use rail_types::{Claim, Deed, List, Owner};
use std::alloc::Global;

/// An entry that was freed, and its claims.
#[derive(Debug, Drop)]
pub(crate) struct Freed {
    pub at: u64,
    pub claims: List<Claim>,
}

/// Brings a copy of the live claims of the first entries, so many as `front`, up to those of now.
/// Its work goes by the entries from there on alone: room for every claim is made first, then what
/// was freed is taken out, and what stands is held; the claims of an entry that came and was freed
/// since are never held. For want of memory the claims of the copy stay.
pub fn bring_up(
    alloc: Global,
    history: &History,
    front: u64,
    copy: &mut Occupations,
) -> Result<(), NoMemory>
    requires front { front ≤ length history.now.entries }
    requires zones { length copy.old ≡ history.now.timetable.net.zones }
    requires live { AreLive history.now.timetable (held copy.old)
        (take front history.now.entries) }
    ensures live { OnOk result
        (AreLive history.now.timetable (held copy.new) history.now.entries) }
    ensures zones { length copy.new ≡ length copy.old }
    ensures err { OnErr result (claims_by_zone copy.new ≡ claims_by_zone copy.old) }
{
    // A hold of one claim that came alone needs no list.
    if let Some(one) = brought_alone(history, front) {
        return hold_brought(alloc, history, front, copy, &[one]);
    }
    legal_histories_never_clash();
    grants_keep_their_requests();
    claims_are_on_the_network();
    history.net();
    history.front();
    let freed = freed_since(alloc, history, front)?;
    let brought = brought_since(alloc, history, front)?;
    reserve_for(alloc, copy, &brought)?;
    take_out_all(copy, &freed);
    hold_in_order(copy, brought);
    Ok(())
}

/// A book of the live claims of a history, made anew.
pub fn copy_of(alloc: Global, history: &History) -> Result<Occupations, NoMemory>
    ensures live { IfOk result (λ book.
        AreLive history.now.timetable (held book) history.now.entries) }
    ensures zones { IfOk result (λ book. length book ≡ history.now.timetable.net.zones) }
{
    live_claims_follow();
    let mut book = Occupations::new(alloc, history.net().zones)?;
    let planned = planned_claims(alloc, history)?;
    reserve_for(alloc, &mut book, &planned)?;
    hold_in_order(&mut book, planned);
    bring_up(alloc, history, 0, &mut book)?;
    Ok(book)
}

/// The claims of the entry at a position, none from the front on.
pub fn claims_at(alloc: Global, history: &History, at: u64) -> Result<Vec<Claim>, NoMemory>
    ensures { IfOk result (λ claims.
        claims.items ≡ claims_standing_at history.now.timetable history.now.entries at) }
{
    // Each entry of a history is in range and breaks no rule, so that its claims can be worked out.
    grants_keep_their_requests();
    claims_are_on_the_network();
    history.front();
    history.net();
    match history.entry(at) {
        Some(entry) => history.claims_of(&entry.deed),
        None => Ok(Vec::new(alloc)),
    }
}

// The claims of the base timetable with their owners.
fn planned_claims(alloc: Global, history: &History) -> Result<Vec<(Claim, Owner)>, NoMemory>
    ensures { IfOk result (λ all. all.items ≡ base_claims history.now.timetable) }
{
    let mut all = Vec::new(alloc);
    for planned in history.base().claims.as_slice() {
        all.push((planned.claim, Owner::Base(planned.train)))?;
    }
    Ok(all)
}

// The position before the front that a deed frees.
fn freed_before(deed: &Deed, front: u64) -> Option<u64>
    ensures some { IfSome result (λ at. (deed.now ≡ deed_free at) × (at < front)) }
    ensures none { IsNone result → (at : ℕ) → deed.now ≡ deed_free at → front ≤ at }
{
    match deed {
        Deed::Free(at) if *at < front => Some(*at),
        _ => None,
    }
}

// The claim that came since with its owner, where one entry came, which is a hold of one claim.
fn brought_alone(history: &History, front: u64) -> Option<(Claim, Owner)>
    requires { front ≤ length history.now.entries }
    ensures brought { IfSome result (λ one.
        one ∷ [] ≡ brought_since history.now.timetable history.now.entries front) }
    ensures freed { IfSome result (λ one.
        AreFreedBelow history.now.timetable history.now.entries front
        (length history.now.entries) []) }
{
    if history.front() - front != 1 {
        return None;
    }
    match claims_of_hold(history, front)? {
        [claim] => Some((*claim, Owner::Entry(front))),
        _ => None,
    }
}

// Holds what was brought since, where nothing was freed. Room for it is made first; for want of
// memory the claims of the copy stay.
fn hold_brought(
    alloc: Global,
    history: &History,
    front: u64,
    copy: &mut Occupations,
    brought: &[(Claim, Owner)],
) -> Result<(), NoMemory>
    requires front { front ≤ length history.now.entries }
    requires zones { length copy.old ≡ history.now.timetable.net.zones }
    requires live { AreLive history.now.timetable (held copy.old)
        (take front history.now.entries) }
    requires brought { brought.now ≡ brought_since history.now.timetable history.now.entries front }
    requires freed { AreFreedBelow history.now.timetable history.now.entries front
        (length history.now.entries) [] }
    ensures live { OnOk result
        (AreLive history.now.timetable (held copy.new) history.now.entries) }
    ensures zones { length copy.new ≡ length copy.old }
    ensures err { OnErr result (claims_by_zone copy.new ≡ claims_by_zone copy.old) }
{
    legal_histories_never_clash();
    grants_keep_their_requests();
    claims_are_on_the_network();
    history.net();
    history.front();
    reserve_for(alloc, copy, brought)?;
    hold_all(copy, brought);
    Ok(())
}

// The entries before the front that one from there on frees, with their claims.
fn freed_since(alloc: Global, history: &History, front: u64) -> Result<Vec<Freed>, NoMemory>
    requires { front ≤ length history.now.entries }
    ensures { IfOk result (λ all. AreFreedBelow history.now.timetable history.now.entries front
        (length history.now.entries) all.items) }
{
    let mut all = Vec::new(alloc);
    for by in front..history.front() {
        let Some(entry) = history.entry(by) else {
            unreachable!()
        };
        if let Some(at) = freed_before(&entry.deed, front) {
            let claims = List::from_vec(claims_at(alloc, history, at)?);
            all.push(Freed { at, claims })?;
        }
    }
    Ok(all)
}

// The claims of the entries from the front on that none frees, with their owners.
fn brought_since(
    alloc: Global,
    history: &History,
    front: u64,
) -> Result<Vec<(Claim, Owner)>, NoMemory>
    ensures { IfOk result (λ all. all.items ≡
        brought_since history.now.timetable history.now.entries front) }
{
    let mut all = Vec::new(alloc);
    for at in front..history.front() {
        if history.freed_by(at).is_none() {
            push_brought(alloc, history, at, &mut all)?;
        }
    }
    Ok(all)
}

// Puts the claims of the entry at this position behind the others, with it as their owner. Those of
// a hold are taken from its deed as they stand there, and need no list of their own.
fn push_brought(
    alloc: Global,
    history: &History,
    at: u64,
    all: &mut Vec<(Claim, Owner)>,
) -> Result<(), NoMemory>
    ensures { OnOk result (all.new.items ≡ all.old.items ++
        owned_by at (claims_standing_at history.now.timetable history.now.entries at)) }
{
    if let Some(claims) = claims_of_hold(history, at) {
        push_owned(all, claims, at)?;
        return Ok(());
    }
    let claims = claims_at(alloc, history, at)?;
    push_owned(all, &claims, at)?;
    Ok(())
}

// The claims of the entry at this position as its deed has them, where it is a hold.
fn claims_of_hold(history: &History, at: u64) -> Option<&[Claim]>
    ensures { IfSome result (λ claims.
        claims.now ≡ claims_standing_at history.now.timetable history.now.entries at) }
{
    let entry = history.entry(at)?;
    match &entry.deed {
        Deed::Hold(claims, _) => Some(claims.as_slice()),
        _ => None,
    }
}

// Puts claims behind the others, with the entry at this position as their owner.
pub(crate) fn push_owned(
    all: &mut Vec<(Claim, Owner)>,
    claims: &[Claim],
    at: u64,
) -> Result<(), NoMemory>
    ensures { OnOk result (all.new.items ≡ all.old.items ++ owned_by at claims.now) }
{
    for claim in claims {
        all.push((*claim, Owner::Entry(at)))?;
    }
    Ok(())
}

// Takes out what these entries hold.
fn take_out_all(book: &mut Occupations, freed: &[Freed])
    requires zones { All (λ one. All (λ claim. claim.zone < length book.old) one.claims) freed.now }
    requires all { All (λ one. AreOnZonesOf (of_entry one.at) (held book.old) one.claims)
        freed.now }
    ensures left { (one : HeldClaim) → Contains (held book.new) one ↔
        (Contains (held book.old) one × All (λ gone. one.1 ≢ of_entry gone.at) freed.now) }
    ensures zones { length book.new ≡ length book.old }
    ensures room { (number : ℕ) →
        (zone_at book.old number).spare ≤ (zone_at book.new number).spare }
{
    for one in freed {
        book.take_out(one.claims.as_slice(), Owner::Entry(one.at));
    }
}
