//! The first of held claims that clashes with new ones.

ghost use Rattle.std.specs.Prelude.{◌≡◌, ◌<◌, All, find, length, not};
ghost use Rattle.std.specs.List.{list_all, list_any};
ghost use Rattle.rail_types.specs.FirstClash.{AreApart, clashing, clashes as claims_clash};
ghost use Rattle.rail_types.specs.FirstClash.{first_clash as first_of, is_before};
ghost use Rattle.rail_types.specs.Occupation.{AreJoined};
ghost use Rattle.occupation_book.specs.Held.{held};

use occupation_book::Occupations;
use rail_types::{Claim, Owner, first_clashes_are_first};

// The first by zone, then by begin, found by looking through all of them.
pub(crate) fn first_clash(live: Vec<(Claim, Owner)>, claims: &[Claim]) -> Option<(Claim, Owner)>
    ensures { result ≡ first_of live.items claims.now }
{
    first_of_all(clashing_of(live, claims).as_slice())
}

// Those that clash with one of these.
fn clashing_of(live: Vec<(Claim, Owner)>, claims: &[Claim]) -> Vec<(Claim, Owner)>
    ensures { result.items ≡ clashing live.items claims.now }
{
    let mut kept = live;
    kept.retain(|one| clashes_with_any(&one.0, claims));
    kept
}

// The first that none is before.
fn first_of_all(all: &[(Claim, Owner)]) -> Option<(Claim, Owner)>
    ensures { result ≡
        find (λ one. list_all (λ other. not (is_before other.0 one.0)) all.now) all.now }
{
    for one in all {
        if none_is_before(one, all) {
            return Some(*one);
        }
    }
    None
}

fn clashes_with_any(held: &Claim, claims: &[Claim]) -> bool
    ensures { result ≡ list_any (claims_clash held.now) claims.now }
{
    claims.iter().any(|claim| clash(held, claim))
}

fn clash(held: &Claim, claim: &Claim) -> bool
    ensures { result ≡ claims_clash held.now claim.now }
{
    held.clashes(claim)
}

fn none_is_before(one: &(Claim, Owner), all: &[(Claim, Owner)]) -> bool
    ensures { result ≡ list_all (λ other. not (is_before other.0 one.now.0)) all.now }
{
    all.iter().all(|other| !other.0.comes_before(&one.0))
}

// The first by zone, then by begin, found by looking for each of the new claims on its zone alone.
// They stand in order, so the first that meets another tells it.
pub(crate) fn first_in_book(book: &Occupations, claims: &[Claim]) -> Option<(Claim, Owner)>
    requires zones { All (λ claim. claim.zone < length book.now) claims.now }
    requires joined { AreJoined claims.now }
    requires apart { AreApart (held book.now) }
    ensures { result ≡ first_of (held book.now) claims.now }
{
    first_clashes_are_first();
    for claim in claims {
        if let Some(first) = book.first_clashing(claim) {
            return Some(first);
        }
    }
    None
}
