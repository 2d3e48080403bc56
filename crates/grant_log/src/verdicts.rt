//! What a history says of a new entry.

ghost use Rattle.std.specs.Prelude.{◌≡◌, IfOk, option_map, if◌then◌else◌};
ghost use Rattle.grant_log.specs.Content.{has_same_content as same_content};
ghost use Rattle.grant_log.specs.Verdict.{already_or_fresh as freed_or_fresh};
ghost use Rattle.grant_log.specs.Verdict.{freed_position as freed_at, kept_or_gone as told_at};
ghost use Rattle.grant_log.specs.Verdict.{takes as deed_takes, taken_or_fresh as told_of};
ghost use Rattle.grant_log.specs.Verdict.{verdict_on_free};

use crate::contents::has_same_content;
use blocking_time::Broken;
use no_memory::NoMemory;
use rail_types::{Claim, Deed, Entry, Name, Owner};
use std::alloc::Global;

/// What a history says of a new entry, the first that applies.
#[derive(Debug, Drop)]
pub enum Verdict {
    /// The owner's number stands with the same content, at this position,
    /// and no later entry freed it.
    Kept(u64),
    /// The owner's number stands with the same content at the first position, and the later
    /// entry at the second freed it.
    Gone(u64, u64),
    /// The owner's number stands with another content, at this position.
    Other(u64),
    /// The path of a grant breaks this rule of what it was asked for, or of paths
    /// that clients give themselves.
    BreaksRequest(Broken),
    /// This live claim of this owner clashes; the first by zone, then by begin.
    Taken(Claim, Owner),
    /// No hold or grant stands at the position that a Free names.
    Unknown,
    /// This client owns the entry that a Free names.
    NotYours(Name),
    /// The later entry at this position has freed the entry that a Free names.
    AlreadyFreed(u64),
    /// None of these: the entry can join the history.
    Fresh,
}

// What is told of an entry whose owner's number stands here, by the later
// entry that frees what stands.
pub(crate) fn told_again(stands: &Entry, deed: &Deed, at: u64, freer: Option<u64>) -> Verdict
    ensures { result ≡
        (if same_content stands.now.deed deed.now then told_at at freer else Verdict.Other at) }
{
    if !has_same_content(&stands.deed, deed) {
        return Verdict::Other(at);
    }
    match freer {
        None => Verdict::Kept(at),
        Some(freer) => Verdict::Gone(at, freer),
    }
}

// What is told of a Free by what stands at the position that it names, and by the
// later entry that frees this.
pub(crate) fn told_of_free(
    alloc: Global,
    owner: &Name,
    stands: Option<&Entry>,
    freer: Option<u64>,
) -> Result<Verdict, NoMemory>
    ensures { IfOk result (λ verdict. verdict ≡
        verdict_on_free owner.now (option_map (λ entry. entry.now) stands.entry) freer) }
{
    let Some(entry) = stands else {
        return Ok(Verdict::Unknown);
    };
    if !takes(&entry.deed) {
        return Ok(Verdict::Unknown);
    }
    if !entry.owner.is_same(owner) {
        return Ok(Verdict::NotYours(entry.owner.copy(alloc)?));
    }
    Ok(already_or_fresh(freer))
}

fn already_or_fresh(freer: Option<u64>) -> Verdict
    ensures { result ≡ freed_or_fresh freer }
{
    match freer {
        None => Verdict::Fresh,
        Some(freer) => Verdict::AlreadyFreed(freer),
    }
}

// What is told of a hold or a grant by the first live claim that clashes.
pub(crate) fn taken_or_fresh(first: Option<(Claim, Owner)>) -> Verdict
    ensures { result ≡ told_of first }
{
    match first {
        None => Verdict::Fresh,
        Some((claim, owner)) => Verdict::Taken(claim, owner),
    }
}

fn takes(deed: &Deed) -> bool
    ensures { result ≡ deed_takes deed.now }
{
    match deed {
        Deed::Hold(_, _) => true,
        Deed::Grant(_, _) => true,
        Deed::Free(_) => false,
    }
}

pub(crate) fn freed_position(deed: &Deed) -> Option<u64>
    ensures { result ≡ freed_at deed.now }
{
    match deed {
        Deed::Free(at) => Some(*at),
        _ => None,
    }
}
