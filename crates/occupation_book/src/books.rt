//! The claims of all zones.

ghost use Rattle.std.specs.Prelude.{◌≡◌, ◌≢◌, ℕ, ◌+◌, ◌-◌, ◌<◌, ◌≤◌, ◌∷◌, ◌↔◌, [], false, length};
ghost use Rattle.std.specs.Prelude.{map, min, option_map, slice_index_or, All, AllPairs, Contains};
ghost use Rattle.std.specs.Prelude.{IfOk, IsNone, IsOk, IsTrue, OnErr, OnOk, ◌⊎◌};
ghost use Rattle.std.specs.List.Sorted.{IsPermutation};
ghost use Rattle.rail_types.specs.declared.paths.Claim.{Claim as claim_type};
ghost use Rattle.rail_types.specs.FirstClash.{AreApart, first_clash as first_of};
ghost use Rattle.rail_types.specs.Limits.{IsNearSpan};
ghost use Rattle.rail_types.specs.Occupation.{HasTicks};
ghost use Rattle.occupation_book.specs.Held.{AreInOrder, AreNear, AreOnZonesOf, claims_by_zone};
ghost use Rattle.occupation_book.specs.Held.{claims_of, claims_of_others, HasEndedBefore, held};
ghost use Rattle.occupation_book.specs.Held.{IsBook, IsFree, IsWithout, zone_at};

use crate::zones::ZoneClaims;
use no_memory::NoMemory;
use rail_types::{Claim, Owner, first_clashes_are_first};
use std::alloc::Global;
use std::marker::Model;

/// Claims with their owners, no two of which clash, and for each zone the room for more. Contracts
/// see a list of zones; those of a zone are sorted by begin.
#[derive(Debug, Drop)]
pub struct Occupations {
    zones: Vec<ZoneClaims>,
}

impl Model for Occupations {
    ghost use Rattle.std.specs.Prelude.{List};
    ghost use Rattle.occupation_book.specs.Zones.{Zone};
    ghost use Rattle.occupation_book.specs.Held.{IsBook};

    ghost Value = { List Zone };

    ghost view = { λ a. a.zones.items };

    ghost invariant = { λ a. IsBook a.zones.items };
}

impl Occupations {
    /// So many zones, on none of which a claim stands.
    pub fn new(alloc: Global, zones: u32) -> Result<Occupations, NoMemory>
        ensures zones { IfOk result (λ book. length book ≡ zones) }
        ensures empty { IfOk result (λ book. held book ≡ []) }
    {
        let mut all = Vec::new(alloc);
        for _ in 0..zones {
            all.push(ZoneClaims::new(alloc))?;
        }
        Ok(Occupations { zones: all })
    }

    /// How many zones there are; they are numbered from 0.
    pub fn zones(&self) -> u32
        ensures count { result ≡ length self.now }
        ensures book { IsBook self.now }
        ensures apart { AreApart (held self.now) }
        ensures near { AreNear (held self.now) }
    {
        self.zones.len() as u32
    }

    /// Whether no held claim clashes with this one. One that ends where the
    /// other begins does not clash.
    pub fn free(&self, claim: &Claim) -> bool
        requires { claim.now.zone < length self.now }
        ensures { IsTrue result ↔ IsFree (held self.now) claim.now }
    {
        self.first_clashing(claim).is_none()
    }

    /// Who holds the claim that clashes with this one and begins first.
    pub fn first_clash(&self, claim: &Claim) -> Option<Owner>
        requires { claim.now.zone < length self.now }
        ensures first { result
            ≡ option_map (λ one. one.1) (first_of (held self.now) (claim.now ∷ [])) }
        ensures free { IsNone result ↔ IsFree (held self.now) claim.now }
    {
        self.first_clashing(claim).map(|(_, owner)| owner)
    }

    /// The held claim that clashes with this one and begins first, with its owner.
    pub fn first_clashing(&self, claim: &Claim) -> Option<(Claim, Owner)>
        requires { claim.now.zone < length self.now }
        ensures first { result ≡ first_of (held self.now) (claim.now ∷ []) }
        ensures free { IsNone result ↔ IsFree (held self.now) claim.now }
    {
        // This law shows that the first of the zone is the first of all.
        first_clashes_are_first();
        let claims = &self.zones[claim.zone as usize];
        claims.first_clashing(claim)
    }

    /// The claims on a zone with their owners, sorted by begin.
    pub fn of_zone(&self, zone: u32) -> &ZoneClaims
        requires { zone < length self.now }
        ensures claims { result.now.claims ≡ (zone_at self.now zone).claims }
        ensures order { AreInOrder zone result.now.claims }
        ensures among { All (Contains (held self.now)) result.now.claims }
        ensures all { All (λ one. one.0.zone ≡ zone → Contains result.now.claims one)
            (held self.now) }
        ensures free { (claim : claim_type) → claim.zone ≡ zone
            → IsFree result.now.claims claim ↔ IsFree (held self.now) claim }
    {
        &self.zones[zone as usize]
    }

    /// Makes room for `n` more claims on a zone. The claims stay; where
    /// memory is wanting nothing changes.
    pub fn reserve(&mut self, zone: u32, n: u32) -> Result<(), NoMemory>
        requires { zone < length self.old }
        ensures claims { claims_by_zone self.new ≡ claims_by_zone self.old }
        ensures held { held self.new ≡ held self.old }
        ensures zones { length self.new ≡ length self.old }
        ensures room { OnOk result (n ≤ (zone_at self.new zone).spare) }
        ensures err { OnErr result (self.new ≡ self.old) }
        ensures kept { (zone_at self.old zone).spare ≤ (zone_at self.new zone).spare }
        ensures had { n ≤ (zone_at self.old zone).spare → IsOk result }
        ensures others { (number : ℕ) → number ≢ zone
            → zone_at self.new number ≡ zone_at self.old number }
    {
        let claims = &mut self.zones[zone as usize];
        claims.reserve(n as usize)
    }

    /// Holds one claim more. It takes no memory.
    pub fn insert(&mut self, claim: Claim, owner: Owner)
        requires zone { claim.zone < length self.old }
        requires ticks { HasTicks claim.span }
        requires near { IsNearSpan claim.span }
        requires free { IsFree (held self.old) claim }
        requires room { 0 < (zone_at self.old claim.zone).spare }
        ensures gained { IsPermutation ((claim, owner) ∷ held self.old) (held self.new) }
        ensures here { IsPermutation ((claim, owner) ∷ (zone_at self.old claim.zone).claims)
            (zone_at self.new claim.zone).claims }
        ensures zones { length self.new ≡ length self.old }
        ensures room { (zone_at self.new claim.zone).spare + 1
            ≡ (zone_at self.old claim.zone).spare }
        ensures others { (number : ℕ) → number ≢ claim.zone
            → zone_at self.new number ≡ zone_at self.old number }
    {
        let claims = &mut self.zones[claim.zone as usize];
        claims.insert(claim, owner);
    }

    /// Takes out all claims of an owner, which are on the zones of these claims, and counts them,
    /// up to the greatest number of its kind. It looks at those zones alone and takes no memory.
    pub fn take_out(&mut self, claims: &[Claim], owner: Owner) -> u32
        requires zones { All (λ claim. claim.zone < length self.old) claims.now }
        requires all { AreOnZonesOf owner (held self.old) claims.now }
        ensures claims { claims_by_zone self.new
            ≡ map (claims_of_others owner) (claims_by_zone self.old) }
        ensures held { held self.new ≡ claims_of_others owner (held self.old) }
        ensures zones { length self.new ≡ length self.old }
        ensures count { result ≡ min (length (claims_of owner (held self.old))) u32.MAX }
        ensures each { (number : ℕ) → number < length self.old
            → IsWithout owner (zone_at self.old number) (zone_at self.new number) }
    {
        let mut count = 0u32;
        for at in 0..claims.len() {
            // Claims of one zone mostly stand side by side, and one look at it is enough.
            if is_on_next_zone(claims, at) {
                let zone = &mut self.zones[claims[at].zone as usize];
                count = count.saturating_add(zone.remove(owner));
            }
        }
        count
    }

    /// Takes out all claims of an owner and counts them, up to the greatest number of its kind.
    /// It looks at all zones: the plain double of `take_out`, for those who do not know the
    /// owner's claims. It takes no memory.
    pub fn remove(&mut self, owner: Owner) -> u32
        ensures claims { claims_by_zone self.new
            ≡ map (claims_of_others owner) (claims_by_zone self.old) }
        ensures held { held self.new ≡ claims_of_others owner (held self.old) }
        ensures count { result ≡ min (length (claims_of owner (held self.old))) u32.MAX }
        ensures zones { length self.new ≡ length self.old }
        ensures each { (number : ℕ) → number < length self.old
            → IsWithout owner (zone_at self.old number) (zone_at self.new number) }
    {
        let mut count = 0u32;
        for number in 0..self.zones.len() {
            let zone = &mut self.zones[number];
            count = count.saturating_add(zone.remove(owner));
        }
        count
    }

    /// All held claims with their owners, by zone, then by begin.
    pub fn claims(&self, alloc: Global) -> Result<Vec<(Claim, Owner)>, NoMemory>
        ensures claims { IfOk result (λ all. all.items ≡ held self.now) }
        ensures sorted { IfOk result (λ all. AllPairs HasEndedBefore all.items) }
    {
        let mut all = Vec::new(alloc);
        for zone in &self.zones {
            zone.append_to(&mut all)?;
        }
        Ok(all)
    }

    /// The same claims, held by an own book.
    pub fn copy(&self, alloc: Global) -> Result<Occupations, NoMemory>
        ensures claims { IfOk result (λ other. claims_by_zone other ≡ claims_by_zone self.now) }
        ensures held { IfOk result (λ other. held other ≡ held self.now) }
        ensures zones { IfOk result (λ other. length other ≡ length self.now) }
    {
        let mut all = Vec::new(alloc);
        for zone in &self.zones {
            all.push(zone.copy(alloc)?)?;
        }
        Ok(Occupations { zones: all })
    }
}

fn is_on_next_zone(claims: &[Claim], at: usize) -> bool
    requires { at < length claims.now }
    ensures same { (d : claim_type) → result ≡ false → (0 < at)
        × ((slice_index_or claims.now (at - 1) d).zone ≡ (slice_index_or claims.now at d).zone) }
    ensures next { (d : claim_type) → IsTrue result → (at ≡ 0)
        ⊎ ((slice_index_or claims.now (at - 1) d).zone ≢ (slice_index_or claims.now at d).zone) }
{
    at == 0 || claims[at - 1].zone != claims[at].zone
}
