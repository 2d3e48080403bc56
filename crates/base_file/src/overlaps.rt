//! The first overlap of two trains, by a sort and a look at neighbours.

ghost use Rattle.std.specs.Prelude.{◌≡◌, ◌+◌, ◌<◌, All, AllPairs, IfOk, IfSome, IsNone, length};
ghost use Rattle.std.specs.Prelude.{option_map, slice_get};
ghost use Rattle.std.specs.List.{AllAdjacentBelow};
ghost use Rattle.std.specs.List.Sorted.{IsPermutation};
ghost use Rattle.std.specs.Ordering.{is_lt};
ghost use Rattle.rail_types.specs.Occupation.{HasTicks};
ghost use Rattle.base_file.specs.Base.{Refuses};
ghost use Rattle.base_file.specs.Overlaps.{
  Apart,
  AreInOrder,
  AreSorted,
  IsFirstAt,
  StandsBefore,
  TellsPair,
  begins_with,
  comes_first,
  least_pair,
  pair_behind,
};

use crate::faults::BaseFault;
use no_memory::NoMemory;
use rail_types::{BaseClaim, List};
use std::alloc::Global;
use std::cmp::Ordering;

/// Claims of two trains that clash, the lower index first.
#[derive(Clone, Copy)]
struct Pair {
    one: BaseClaim,
    other: BaseClaim,
}

/// Refuses claims of which two of different trains clash. The claims of each train are joined.
pub(crate) fn refuse_overlap(alloc: Global, claims: &List<BaseClaim>) -> Result<(), BaseFault>
    requires ticks { All (λ one. HasTicks one.claim.span) claims.now }
    requires joined { AllPairs StandsBefore claims.now }
    ensures { Refuses claims.now result }
{
    let Some(pair) = first_pair(alloc, claims.as_slice())? else {
        return Ok(());
    };
    Err(BaseFault::Overlap {
        zone: pair.one.claim.zone,
        a: pair.one.train,
        b: pair.other.train,
    })
}

fn first_pair(alloc: Global, claims: &[BaseClaim]) -> Result<Option<Pair>, NoMemory>
    requires ticks { All (λ one. HasTicks one.claim.span) claims.now }
    requires joined { AllPairs StandsBefore claims.now }
    ensures { IfOk result (λ pair. TellsPair claims.now pair) }
{
    let sorted = sorted(alloc, claims)?;
    let pair = pair_in(sorted.as_slice());
    Ok(pair)
}

/// By zone, then by begin, then by train.
fn sorted(alloc: Global, claims: &[BaseClaim]) -> Result<Vec<BaseClaim>, NoMemory>
    ensures moved { IfOk result (λ sorted. IsPermutation claims.now sorted.items) }
    ensures order { IfOk result (λ sorted. AreInOrder sorted.items) }
{
    let mut sorted = Vec::from_slice(alloc, claims)?;
    sorted.sort_by(|one, other| order(one, other))?;
    Ok(sorted)
}

fn order(one: &BaseClaim, other: &BaseClaim) -> Ordering
    ensures { is_lt result ≡ comes_first one.now other.now }
{
    if one.claim.zone != other.claim.zone {
        return one.claim.zone.cmp(&other.claim.zone);
    }
    if one.claim.span.from != other.claim.span.from {
        return one.claim.span.from.cmp(&other.claim.span.from);
    }
    one.train.cmp(&other.train)
}

fn pair_in(sorted: &[BaseClaim]) -> Option<Pair>
    requires { AreSorted sorted.now }
    ensures { TellsPair sorted.now result }
{
    let Some(at) = first_at(sorted) else {
        return None;
    };
    let next = claim_at(sorted, at + 2);
    let pair = least(&sorted[at], &sorted[at + 1], next);
    Some(pair)
}

fn claim_at(sorted: &[BaseClaim], at: usize) -> Option<&BaseClaim>
    ensures { option_map (λ one. one.now) result ≡ slice_get sorted.now at }
{
    sorted.get(at)
}

/// The first claim that clashes with the next. While none does, the claims of a zone end one after
/// the other, so that a claim that clashes with any in front of it clashes with the last of these.
fn first_at(sorted: &[BaseClaim]) -> Option<usize>
    ensures none { IsNone result → AllAdjacentBelow Apart sorted.now (length sorted.now) }
    ensures some { IfSome result (λ at. IsFirstAt sorted.now at) }
{
    'pairs: for next in 1..sorted.len() {
        if sorted[next - 1].claim.clashes(&sorted[next].claim) {
            return Some(next - 1);
        }
    }
    None
}

/// Of a claim, the first that begins with it or behind it and clashes with it, and the one
/// behind that: the pair of the least trains that clash where the second begins. Claims that
/// begin there stand by their trains.
fn least(left: &BaseClaim, right: &BaseClaim, next: Option<&BaseClaim>) -> Pair
    ensures { result ≡ least_pair left.now right.now (option_map (λ one. one.now) next.entry) }
{
    if left.train < right.train {
        return Pair {
            one: *left,
            other: *right,
        };
    }
    behind(left, right, next)
}

fn behind(left: &BaseClaim, right: &BaseClaim, next: Option<&BaseClaim>) -> Pair
    ensures { result ≡ pair_behind left.now right.now (option_map (λ one. one.now) next.entry) }
{
    let Some(next) = next else {
        return Pair {
            one: *right,
            other: *left,
        };
    };
    let other = if begins_with(right, next) && next.train < left.train {
        *next
    } else {
        *left
    };
    Pair { one: *right, other }
}

fn begins_with(one: &BaseClaim, other: &BaseClaim) -> bool
    ensures { result ≡ begins_with one.now other.now }
{
    one.claim.zone == other.claim.zone && one.claim.span.from == other.claim.span.from
}
