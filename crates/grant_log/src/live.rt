//! What the claims of deeds are, and which of them are live, found by looking through all entries.

ghost use Rattle.std.specs.Prelude.{◌≡◌, ◌<◌, ◌++◌, IfOk, OnOk, Some, length, map, slice_get};
ghost use Rattle.rail_types.specs.declared.entries.Entry.{Entry as entry_type};
ghost use Rattle.rail_types.specs.declared.entries.Owner.TheVariants.{Base as of_train};
ghost use Rattle.rail_types.specs.Timetables.{timetable_of};
ghost use Rattle.grant_log.specs.Inside.{HasStairway, HaveStairways};
ghost use Rattle.grant_log.specs.Live.{claims_of as deed_claims, live_claims as live_of_all};
ghost use Rattle.grant_log.specs.Live.{live_of, owned_by};

use crate::scans::freed_by;
use blocking_time::{joined, stairway};
use no_memory::NoMemory;
use rail_types::{Base, Claim, Deed, Entry, Network, Owner};
use std::alloc::Global;

// The claims of a deed on a timetable.
pub(crate) fn claims_of(
    alloc: Global,
    net: &Network,
    base: &Base,
    deed: &Deed,
) -> Result<Vec<Claim>, NoMemory>
    requires { HasStairway (timetable_of net.now base.now) deed.now }
    ensures { IfOk result (λ claims.
        claims.items ≡ deed_claims (timetable_of net.now base.now) deed.now) }
{
    match deed {
        Deed::Hold(claims, _) => Ok(Vec::from_slice(alloc, claims.as_slice())?),
        Deed::Grant(_, path) => {
            let claims = stairway(alloc, net, &base.settings, path)?;
            Ok(joined(alloc, &claims)?)
        }
        Deed::Free(_) => Ok(Vec::new(alloc)),
    }
}

// The live claims: those of the base timetable, and those of the entries that no later one frees.
pub(crate) fn live_claims(
    alloc: Global,
    net: &Network,
    base: &Base,
    entries: &[Entry],
) -> Result<Vec<(Claim, Owner)>, NoMemory>
    requires { HaveStairways (timetable_of net.now base.now) entries.now }
    ensures { IfOk result (λ live.
        live.items ≡ live_of_all (timetable_of net.now base.now) entries.now) }
{
    let mut live = planned_claims(alloc, base)?;
    for at in 0..entries.len() {
        push_live(alloc, &mut live, net, base, entries, at)?;
    }
    Ok(live)
}

// The claims of the planned trains, each with its train as the owner.
fn planned_claims(alloc: Global, base: &Base) -> Result<Vec<(Claim, Owner)>, NoMemory>
    ensures { IfOk result (λ all.
        all.items ≡ map (λ one. (one.claim, of_train one.train)) base.now.claims) }
{
    let mut all = Vec::new(alloc);
    for planned in base.claims.as_slice() {
        all.push((planned.claim, Owner::Base(planned.train)))?;
    }
    Ok(all)
}

// Puts the claims of the entry at this position behind the others, where no later one frees it.
fn push_live(
    alloc: Global,
    live: &mut Vec<(Claim, Owner)>,
    net: &Network,
    base: &Base,
    entries: &[Entry],
    at: usize,
) -> Result<(), NoMemory>
    requires stairways { HaveStairways (timetable_of net.now base.now) entries.now }
    requires within { at < length entries.now }
    ensures { (entry : entry_type) → slice_get entries.now at ≡ Some entry → OnOk result
        (live.new.items ≡
        live.old.items ++ live_of (timetable_of net.now base.now) entries.now at entry) }
{
    if freed_by(entries, at as u64).is_some() {
        return Ok(());
    }
    let claims = claims_of(alloc, net, base, &entries[at].deed)?;
    push_owned(live, &claims, at as u64)
}

// Puts claims behind the others, with the entry at this position as their owner.
fn push_owned(live: &mut Vec<(Claim, Owner)>, claims: &[Claim], at: u64) -> Result<(), NoMemory>
    ensures { OnOk result (live.new.items ≡ live.old.items ++ owned_by at claims.now) }
{
    for claim in claims {
        live.push((*claim, Owner::Entry(at)))?;
    }
    Ok(())
}
