//! Claims that overlap or touch, joined to one.

ghost use Rattle.std.specs.Prelude.{◌≡◌, ◌↔◌, ◌∷◌, ◌++◌, ◌⊎◌, ◌≤◌, All, IsTrue, IfOk, OnOk, length};
ghost use Rattle.std.specs.List.Sorted.{IsPermutation};
ghost use Rattle.std.specs.Ordering.{is_lt};
ghost use Rattle.rail_types.specs.Occupation.{AreJoined, HasTicks};
ghost use Rattle.blocking_time.specs.Joined.{
  AreByBegin,
  AreJoinedUpTo,
  BeginsBy,
  CoverTheSame,
  HasJoined,
  Meets,
  comes_first,
  joined_claims,
  united as both,
};

use no_memory::NoMemory;
use rail_types::{Claim, Span};
use std::alloc::Global;
use std::cmp::Ordering;

// By zone, then by begin.
fn order(one: &Claim, other: &Claim) -> Ordering
    ensures { is_lt result ≡ comes_first one.now other.now }
{
    if one.zone == other.zone {
        one.span.from.cmp(&other.span.from)
    } else {
        one.zone.cmp(&other.zone)
    }
}

fn meets(one: &Claim, claim: &Claim) -> bool
    ensures { IsTrue result ↔ Meets one.now claim.now }
{
    one.zone == claim.zone && claim.span.from <= one.span.to
}

fn has_ticks(claim: &Claim) -> bool
    ensures { IsTrue result ↔ HasTicks claim.now.span }
{
    claim.span.from < claim.span.to
}

fn united(one: &Claim, claim: &Claim) -> Claim
    ensures { result ≡ both one.now claim.now }
{
    let to = if one.span.to < claim.span.to {
        claim.span.to
    } else {
        one.span.to
    };
    Claim {
        zone: one.zone,
        span: Span {
            from: one.span.from,
            to,
        },
    }
}

// Puts a claim, which begins no earlier than the others, behind them, or unites it with the last.
fn join_into(made: &mut Vec<Claim>, claim: &Claim) -> Result<(), NoMemory>
    requires made { AreJoined made.old.items }
    requires behind { All (λ one. BeginsBy one claim.now) made.old.items }
    requires ticks { HasTicks claim.now.span }
    ensures { OnOk result (HasJoined made.old.items claim.now made.new.items) }
{
    let Some(last) = made.pop() else {
        made.push(*claim)?;
        return Ok(());
    };
    if meets(&last, claim) {
        made.push(united(&last, claim))?;
        return Ok(());
    }
    made.push(last)?;
    made.push(*claim)?;
    Ok(())
}

fn sorted(alloc: Global, claims: &[Claim]) -> Result<Vec<Claim>, NoMemory>
    ensures moved { IfOk result (λ sorted. IsPermutation claims.now sorted.items) }
    ensures order { IfOk result (λ sorted. AreByBegin sorted.items) }
{
    let mut sorted = Vec::from_slice(alloc, claims)?;
    sorted.sort_by(|one, other| order(one, other))?;
    Ok(sorted)
}

fn join_all(alloc: Global, sorted: &[Claim]) -> Result<Vec<Claim>, NoMemory>
    requires { AreByBegin sorted.now }
    ensures { IfOk result (λ made. AreJoinedUpTo made.items sorted.now (length sorted.now)) }
{
    let mut made = Vec::new(alloc);
    for claim in sorted {
        if has_ticks(claim) {
            join_into(&mut made, claim)?;
        }
    }
    Ok(made)
}

/// The same ticks of each zone as claims by zone, then by begin, no two of which overlap or touch.
/// A claim without ticks is left out.
pub fn joined(alloc: Global, claims: &[Claim]) -> Result<Vec<Claim>, NoMemory>
    ensures { IfOk result (λ made. made.items ≡ joined_claims claims.now) }
{
    let sorted = sorted(alloc, claims)?;
    let made = join_all(alloc, sorted.as_slice())?;
    Ok(made)
}
