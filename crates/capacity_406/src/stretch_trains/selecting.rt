//! The trains of a stretch.

ghost use Rattle.std.specs.Prelude.{◌≡◌, filter, map, IfOk};
ghost use Rattle.capacity_406.specs.Selecting.{AreSelected};
ghost use Rattle.capacity_406.specs.Trains.{AreBeside, AreOwnApart};
ghost use Rattle.capacity_406.specs.InsideStretch.{is_on, is_wanted, train_of};
ghost use Rattle.capacity_406.specs.StretchTrains.{AreTrainsOn, grants_at, is_grant, is_train};

use crate::stretch_trains::groups::{Standing, group};
use crate::stretch_trains::orders::{sort_as_told, sort_by_owner};
use crate::{Occupied, Stretch, selected_trains_stand_beside_each_other};
use grant_log::History;
use grant_log::copy_since::copy_of;
use no_memory::NoMemory;
use rail_types::{Claim, Deed, Owner};
use std::alloc::Global;

/// The trains that run on a stretch in a history, with all their claims on its zones: those of the
/// base timetable and of the grants that stand, which have a claim there that begins in its window.
/// They are in the order of their first begin, then trains of the base timetable before grants,
/// then by number. Holds are no trains.
pub fn trains_on(
    alloc: Global,
    history: &History,
    stretch: &Stretch,
) -> Result<Vec<Occupied>, NoMemory>
    ensures selected { IfOk result (λ trains. AreTrainsOn stretch.now history.now.timetable
        history.now.entries trains.items) }
    ensures beside { IfOk result (λ trains. AreBeside trains.items) }
    ensures own { IfOk result (λ trains. AreOwnApart trains.items) }
{
    selected_trains_stand_beside_each_other();
    let book = copy_of(alloc, history)?;
    // What the book holds is near, and no two of its claims clash.
    book.zones();
    let held = book.claims(alloc)?;
    let trains = select(alloc, history, &held, stretch)?;
    Ok(trains)
}

// The trains that run on a stretch among claims that are held.
fn select(
    alloc: Global,
    history: &History,
    held: &[(Claim, Owner)],
    stretch: &Stretch,
) -> Result<Vec<Occupied>, NoMemory>
    ensures { IfOk result (λ trains.
        AreSelected (is_train history.now.entries) stretch.now held.now trains.items) }
{
    let mut wanted = wanted_claims(alloc, history, held, stretch)?;
    sort_by_owner(&mut wanted);
    let mut standing = group(alloc, &wanted, stretch)?;
    sort_as_told(&mut standing);
    let trains = trains_of(alloc, &standing)?;
    Ok(trains)
}

// The claims of trains on the zones of the stretch.
fn wanted_claims(
    alloc: Global,
    history: &History,
    held: &[(Claim, Owner)],
    stretch: &Stretch,
) -> Result<Vec<(Claim, Owner)>, NoMemory>
    ensures { IfOk result (λ wanted.
        wanted.items ≡ filter (is_wanted history.now.entries stretch.now) held.now) }
{
    let mut wanted = Vec::new(alloc);
    for one in held {
        if is_wanted(history, stretch, one) {
            wanted.push(*one)?;
        }
    }
    Ok(wanted)
}

fn is_wanted(history: &History, stretch: &Stretch, one: &(Claim, Owner)) -> bool
    ensures { result ≡ is_wanted history.now.entries stretch.now one.now }
{
    is_on(stretch, &one.0) && is_train(history, &one.1)
}

fn is_on(stretch: &Stretch, claim: &Claim) -> bool
    ensures { result ≡ is_on stretch.now claim.now }
{
    stretch.first <= claim.zone && claim.zone <= stretch.last
}

// Whether an owner is a train: one of the base timetable, or an entry that grants a path.
fn is_train(history: &History, owner: &Owner) -> bool
    ensures { result ≡ is_train history.now.entries owner.now }
{
    match owner {
        Owner::Base(_) => true,
        Owner::Entry(at) => grants(history, *at),
    }
}

fn grants(history: &History, at: u64) -> bool
    ensures { result ≡ grants_at history.now.entries at }
{
    let Some(entry) = history.entry(at) else {
        return false;
    };
    is_grant(&entry.deed)
}

fn is_grant(deed: &Deed) -> bool
    ensures { result ≡ is_grant deed.now }
{
    matches!(deed, Deed::Grant(..))
}

// The trains, each with its claims.
fn trains_of(alloc: Global, standing: &[Standing]) -> Result<Vec<Occupied>, NoMemory>
    ensures { IfOk result (λ trains. trains.items ≡ map train_of standing.now) }
{
    let mut trains = Vec::new(alloc);
    for one in standing {
        trains.push(train_of(alloc, one)?)?;
    }
    Ok(trains)
}

fn train_of(alloc: Global, one: &Standing) -> Result<Occupied, NoMemory>
    ensures { IfOk result (λ train. train ≡ train_of one.now) }
{
    Ok(Occupied {
        owner: one.owner,
        claims: one.claims.copy(alloc)?,
    })
}
