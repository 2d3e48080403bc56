//! Room for claims, before any of them is held.

ghost use Rattle.std.specs.Prelude.{◌≡◌, ◌-◌, ◌<◌, ◌≤◌, ℕ, All, IfOk, OnOk, length, slice_index_or};
ghost use Rattle.std.specs.Prelude.{take};
ghost use Rattle.occupation_book.specs.Held.{claims_by_zone, held, zone_at};
ghost use Rattle.grant_log.specs.Rooms.{AreAscending, HasRoomFor, count_of, how_many_on};

use no_memory::NoMemory;
use occupation_book::Occupations;
use rail_types::{Claim, Owner};
use std::alloc::Global;

// Makes room for these claims on each of their zones. The claims that are held stay,
// and so does all room there was.
pub(crate) fn reserve_for(
    alloc: Global,
    book: &mut Occupations,
    claims: &[(Claim, Owner)],
) -> Result<(), NoMemory>
    requires zones { All (λ one. one.0.zone < length book.old) claims.now }
    ensures claims { claims_by_zone book.new ≡ claims_by_zone book.old }
    ensures held { held book.new ≡ held book.old }
    ensures zones { length book.new ≡ length book.old }
    ensures room { OnOk result (HasRoomFor book.new claims.now) }
    ensures kept { (number : ℕ) →
        (zone_at book.old number).spare ≤ (zone_at book.new number).spare }
{
    // A claim that comes alone is the only one of its zone, so nothing needs to be counted.
    if claims.len() == 1 {
        book.reserve(claims[0].0.zone, 1)?;
        return Ok(());
    }
    let zones = sorted_zones(alloc, claims)?;
    reserve_each(book, &zones)
}

// The zones of claims in ascending order, each as often as claims are on it.
fn sorted_zones(alloc: Global, claims: &[(Claim, Owner)]) -> Result<Vec<u32>, NoMemory>
    ensures all { IfOk result (λ zones. (count : ℕ) →
        All (λ one. one.0.zone < count) claims.now → All (λ zone. zone < count) zones.items) }
    ensures count { IfOk result (λ zones. (number : ℕ) →
        count_of number zones.items ≡ how_many_on number claims.now) }
    ensures order { IfOk result (λ zones. AreAscending zones.items) }
{
    let mut zones = Vec::new(alloc);
    for one in claims {
        zones.push(one.0.zone)?;
    }
    zones.sort()?;
    Ok(zones)
}

// How often the zone at this place stands before it, by how often the one
// before it stands up to there.
fn number_before(zones: &[u32], at: usize, same: u32) -> u32
    requires within { at < length zones.now }
    requires order { AreAscending zones.now }
    requires counted { (d : ℕ) → 0 < at →
        same ≡ count_of (slice_index_or zones.now (at - 1) d) (take at zones.now) }
    ensures { (d : ℕ) → result ≡ count_of (slice_index_or zones.now at d) (take at zones.now) }
{
    if at > 0 && zones[at - 1] == zones[at] {
        same
    } else {
        0
    }
}

// Makes room for as many claims on each zone as it stands here.
fn reserve_each(book: &mut Occupations, zones: &[u32]) -> Result<(), NoMemory>
    requires zones { All (λ zone. zone < length book.old) zones.now }
    requires order { AreAscending zones.now }
    ensures claims { claims_by_zone book.new ≡ claims_by_zone book.old }
    ensures held { held book.new ≡ held book.old }
    ensures zones { length book.new ≡ length book.old }
    ensures room { OnOk result ((number : ℕ) →
        count_of number zones.now ≤ (zone_at book.new number).spare) }
    ensures kept { (number : ℕ) →
        (zone_at book.old number).spare ≤ (zone_at book.new number).spare }
{
    let mut same = 0u32;
    for at in 0..zones.len() {
        let before = number_before(zones, at, same);
        // More claims of one zone than can be counted are more than memory holds.
        same = before.checked_add(1).ok_or(NoMemory)?;
        book.reserve(zones[at], same)?;
    }
    Ok(())
}
