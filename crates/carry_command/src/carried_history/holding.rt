//! Claims that meet those of a book, and that come to them; and the room for those to come.

ghost use Rattle.std.specs.Prelude.{◌≡◌, ◌<◌, All, AllPairs, IfOk, OnOk, length, map};
ghost use Rattle.rail_types.specs.FirstClash.{AreApart, first_clash};
ghost use Rattle.rail_types.specs.Occupation.{AreJoined, Clash};
ghost use Rattle.path_recover.specs.claims.Held.{held, IsFree};
ghost use Rattle.path_recover.specs.history.Following.{AreLive, Gains};
ghost use Rattle.path_recover.specs.history.Live.{owned_by};
ghost use Rattle.path_recover.specs.history.Rooms.{MayBeHeld};

use no_memory::NoMemory;
use path_recover::claims::Occupations;
use path_recover::history::History;
use path_recover::history::copy_since::copy_of;
use rail_types::{Claim, Owner, first_clashes_are_first};
use std::alloc::Global;

// How many claims stand on each zone of a book, which is let go of.
fn counts_of(alloc: Global, claims: Occupations) -> Result<Vec<usize>, NoMemory>
    ensures { IfOk result (λ counts. counts.items ≡ map (λ zone. length zone.claims) claims) }
{
    let mut counts = Vec::new(alloc);
    for zone in 0..claims.zones() {
        counts.push(claims.of_zone(zone).len())?;
    }
    Ok(counts)
}

// Makes room for so many claims on each zone. The claims that are held stay.
fn reserve_each(book: &mut Occupations, counts: &[usize]) -> Result<(), NoMemory>
    ensures held { held book.new ≡ held book.old }
    ensures zones { length book.new ≡ length book.old }
{
    for zone in 0..book.zones() {
        if let Some(count) = counts.get(zone as usize) {
            book.reserve(zone, (*count).min(u32::MAX as usize) as u32)?;
        }
    }
    Ok(())
}

/// A book of the live claims of a history, with room on each zone for as many more as stand there
/// in another book, which is let go of before.
pub(crate) fn roomy_copy_of(
    alloc: Global,
    history: &History,
    claims: Occupations,
) -> Result<Occupations, NoMemory>
    ensures live { IfOk result (λ book.
        AreLive history.now.timetable (held book) history.now.entries) }
    ensures zones { IfOk result (λ book. length book ≡ history.now.timetable.net.zones) }
{
    let counts = counts_of(alloc, claims)?;
    let mut book = copy_of(alloc, history)?;
    reserve_each(&mut book, &counts)?;
    Ok(book)
}

/// The first held claim that clashes with one of these, by zone, then by begin. They stand in
/// order, so the first that meets another tells it.
pub(crate) fn first_taken(book: &Occupations, claims: &[Claim]) -> Option<(Claim, Owner)>
    requires zones { All (λ claim. claim.zone < length book.now) claims.now }
    requires joined { AreJoined claims.now }
    requires apart { AreApart (held book.now) }
    ensures { result ≡ first_clash (held book.now) claims.now }
{
    first_clashes_are_first();
    for claim in claims {
        if let Some(first) = book.first_clashing(claim) {
            return Some(first);
        }
    }
    None
}

/// Holds these claims too, with the entry at a position as their owner. They must be free, and no
/// two of them clash.
pub(crate) fn hold_each(book: &mut Occupations, claims: &[Claim], at: u64) -> Result<(), NoMemory>
    requires each { All (MayBeHeld (length book.old)) (owned_by at claims.now) }
    requires free { All (λ one. IsFree (held book.old) one.0) (owned_by at claims.now) }
    requires apart { AllPairs (λ one other. ¬ Clash one.0 other.0) (owned_by at claims.now) }
    ensures gained { OnOk result (Gains (held book.old) (owned_by at claims.now)
        (held book.new)) }
    ensures zones { OnOk result (length book.new ≡ length book.old) }
{
    for claim in claims {
        book.reserve(claim.zone, 1)?;
        book.insert(*claim, Owner::Entry(at));
    }
    Ok(())
}
