//! The claims of one zone.

ghost use Rattle.std.specs.Prelude.{◌≡◌, ℕ, ◌+◌, ◌<◌, ◌≤◌, ◌<ℤ◌, ◌≤ℤ◌, [], ◌∷◌, ◌++◌, length, min};
ghost use Rattle.std.specs.Prelude.{int_le, int_lt, insert, slice_index_or, vec_capacity, vec_len};
ghost use Rattle.std.specs.Prelude.{AllPairs, IfOk, IfSome, IsNone, OnErr, OnOk, ◌↔◌, IsOk};
ghost use Rattle.std.specs.List.{AllWithin};
ghost use Rattle.std.specs.List.Sorted.{IsPermutation};
ghost use Rattle.rail_types.specs.FirstClash.{IsFirstClash};
ghost use Rattle.rail_types.specs.declared.limits.TheConstants.{FAR_TICK};
ghost use Rattle.rail_types.specs.Limits.{IsNearSpan};
ghost use Rattle.rail_types.specs.Occupation.{HasTicks, HeldClaim};
ghost use Rattle.occupation_book.specs.Columns.{begin_of as begin, owner_of, row_of, rows_of};
ghost use Rattle.occupation_book.specs.Held.{AreInOrder, claims_of, claims_of_others};
ghost use Rattle.occupation_book.specs.Held.{is_same_owner as same_owner, IsFree, IsWithout};

use no_memory::NoMemory;
use rail_types::{Claim, FAR_TICK, Owner, Span, Tick};
use std::alloc::Global;
use std::marker::Model;

/// The claims on one zone with their owners, sorted by begin. Contracts
/// see them and the room for more.
#[derive(Debug, Drop)]
pub struct ZoneClaims {
    // The zone of the claims; any number where there are none.
    zone: u32,
    // For how many more both columns have room, as far as it was asked for.
    room: usize,
    // The tick before which each claim ends: what a search looks at stands side by side.
    ends: Vec<Tick>,
    // What else there is of each claim, in the same order.
    rest: Vec<Rest>,
}

// By how much later than it begins a claim of a train of the base is written down; so who holds it
// takes no number more.
const BASE_LATER: Tick = 1 << 62;

// A claim without its zone and its end, in two numbers, so that few bytes move where another claim
// comes before it.
#[derive(Clone, Copy, Debug)]
pub(crate) struct Rest {
    // The tick at which the claim begins, later by BASE_LATER where a train of the base holds it.
    written: Tick,
    // The number of the train, or of the entry, that holds it.
    holder: u64,
}

impl Model for ZoneClaims {
    ghost use Rattle.std.specs.Prelude.{◌≡◌, ◌+◌, ◌≤◌, length, vec_capacity, vec_len};
    ghost use Rattle.occupation_book.specs.Zones.{Zone};
    ghost use Rattle.occupation_book.specs.Columns.{rows_of};

    ghost Value = { Zone };

    ghost view = { λ a. record {
      claims = rows_of a.zone a.ends.items a.rest.items;
      spare = a.room;
    } };

    ghost invariant = { λ a. record {
      level : length a.ends.items ≡ length a.rest.items;
      ends : vec_len a.ends + a.room ≤ vec_capacity a.ends;
      rest : vec_len a.rest + a.room ≤ vec_capacity a.rest;
    } };
}

impl ZoneClaims {
    // A zone without claims.
    pub(crate) fn new(alloc: Global) -> ZoneClaims
        ensures { result.claims ≡ [] }
    {
        ZoneClaims {
            zone: 0,
            room: 0,
            ends: Vec::new(alloc),
            rest: Vec::new(alloc),
        }
    }

    pub(crate) fn copy(&self, alloc: Global) -> Result<ZoneClaims, NoMemory>
        ensures { IfOk result (λ other. other.claims ≡ self.now.claims) }
    {
        let ends = Vec::from_slice(alloc, self.ends.as_slice())?;
        let rest = Vec::from_slice(alloc, self.rest.as_slice())?;
        Ok(ZoneClaims {
            zone: self.zone,
            room: 0,
            ends,
            rest,
        })
    }

    /// How many claims there are.
    pub fn len(&self) -> usize
        ensures { result ≡ length self.now.claims }
    {
        self.ends.len()
    }

    /// The claim at a place with its owner.
    pub fn claim_at(&self, at: usize) -> (Claim, Owner)
        requires { at < length self.now.claims }
        ensures { (d : HeldClaim) → result ≡ slice_index_or self.now.claims at d }
    {
        let end = &self.ends[at];
        let rest = &self.rest[at];
        claim_of(self.zone, end, rest)
    }

    /// The span of the claim at a place.
    pub fn span_at(&self, at: usize) -> Span
        requires { at < length self.now.claims }
        ensures { (d : HeldClaim) → result ≡ (slice_index_or self.now.claims at d).0.span }
    {
        self.claim_at(at).0.span
    }

    /// How many of the claims, all of which are on this zone, end by the tick at which a span
    /// begins; they stand first. It looks at their ends alone.
    pub fn first_ending_after(&self, zone: u32, span: &Span) -> usize
        requires { AreInOrder zone self.now.claims }
        ensures bound { result ≤ length self.now.claims }
        ensures before { AllWithin (λ one. one.0.span.to ≤ℤ span.now.from) self.now.claims
            0 result }
        ensures after { AllWithin (λ one. span.now.from <ℤ one.0.span.to) self.now.claims
            result (length self.now.claims) }
    {
        ended_by(self.ends.as_slice(), span)
    }

    // The first of the claims that clashes with this one.
    pub(crate) fn first_clashing(&self, claim: &Claim) -> Option<(Claim, Owner)>
        requires order { AreInOrder claim.now.zone self.now.claims }
        ensures found { IfSome result (IsFirstClash self.now.claims (claim.now ∷ [])) }
        ensures free { IsNone result ↔ IsFree self.now.claims claim.now }
    {
        let at = self.first_ending_after(claim.zone, &claim.span);
        if at >= self.len() {
            return None;
        }
        let next = self.claim_at(at);
        if next.0.clashes(claim) {
            Some(next)
        } else {
            None
        }
    }

    // Puts the claims behind others.
    pub(crate) fn append_to(&self, all: &mut Vec<(Claim, Owner)>) -> Result<(), NoMemory>
        ensures { OnOk result (all.new.items ≡ all.old.items ++ self.now.claims) }
    {
        for at in 0..self.len() {
            all.push(self.claim_at(at))?;
        }
        Ok(())
    }

    pub(crate) fn reserve(&mut self, n: usize) -> Result<(), NoMemory>
        ensures claims { self.new.claims ≡ self.old.claims }
        ensures room { OnOk result (n ≤ self.new.spare) }
        ensures err { OnErr result (self.new ≡ self.old) }
        ensures kept { self.old.spare ≤ self.new.spare }
        ensures had { n ≤ self.old.spare → IsOk result }
    {
        if n <= self.room {
            return Ok(());
        }
        self.ends.reserve(n)?;
        self.rest.reserve(n)?;
        self.room = n;
        Ok(())
    }

    pub(crate) fn insert(&mut self, claim: Claim, owner: Owner)
        requires order { AreInOrder claim.zone self.old.claims }
        requires ticks { HasTicks claim.span }
        requires near { IsNearSpan claim.span }
        requires free { IsFree self.old.claims claim }
        requires room { 0 < self.old.spare }
        ensures order { AreInOrder claim.zone self.new.claims }
        ensures gained { IsPermutation ((claim, owner) ∷ self.old.claims) self.new.claims }
        ensures room { self.new.spare + 1 ≡ self.old.spare }
    {
        let at = self.first_ending_after(claim.zone, &claim.span);
        let row = rest_of(&claim, owner);
        insert_row(&mut self.ends, &mut self.rest, at, &claim, row);
        self.zone = claim.zone;
        self.room -= 1;
    }

    pub(crate) fn remove(&mut self, owner: Owner) -> u32
        ensures without { IsWithout owner self.old self.new }
        ensures count { result ≡ min (length (claims_of owner self.old.claims)) u32.MAX }
    {
        let before = self.ends.len();
        keep_others(&mut self.ends, &mut self.rest, &owner);
        let count = before - self.ends.len();
        self.room += count;
        count.min(u32::MAX as usize) as u32
    }
}

// The claim on a zone with its owner, by what both columns have of it.
fn claim_of(zone: u32, end: &Tick, rest: &Rest) -> (Claim, Owner)
    ensures { result ≡ row_of zone end.now rest.now }
{
    let span = Span {
        from: begin_of(rest),
        to: *end,
    };
    (Claim { zone, span }, holder_of(rest))
}

// The row of a claim.
fn rest_of(claim: &Claim, owner: Owner) -> Rest
    requires near { IsNearSpan claim.now.span }
    ensures from { begin result ≡ claim.now.span.from }
    ensures owner { owner_of result ≡ owner }
{
    let from = claim.span.from;
    match owner {
        Owner::Base(train) => Rest {
            written: from + BASE_LATER,
            holder: u64::from(train),
        },
        Owner::Entry(entry) => Rest {
            written: from,
            holder: entry,
        },
    }
}

// Whether a train of the base holds the claim of a row: no claim begins so late.
fn is_of_base(rest: &Rest) -> bool
    ensures { result ≡ int_lt FAR_TICK rest.now.written }
{
    FAR_TICK < rest.written
}

// The tick at which the claim of a row begins.
fn begin_of(rest: &Rest) -> Tick
    ensures { result ≡ begin rest.now }
{
    if is_of_base(rest) {
        rest.written - BASE_LATER
    } else {
        rest.written
    }
}

// Who holds the claim of a row.
fn holder_of(rest: &Rest) -> Owner
    ensures { result ≡ owner_of rest.now }
{
    if is_of_base(rest) {
        Owner::Base(rest.holder.min(u64::from(u32::MAX)) as u32)
    } else {
        Owner::Entry(rest.holder)
    }
}

// How many of some ends, in order, come by the tick at which a span begins.
fn ended_by(ends: &[Tick], span: &Span) -> usize
    requires { AllPairs (λ one later. one ≤ℤ later) ends.now }
    ensures bound { result ≤ length ends.now }
    ensures before { AllWithin (λ end. end ≤ℤ span.now.from) ends.now 0 result }
    ensures after { AllWithin (λ end. span.now.from <ℤ end) ends.now result (length ends.now) }
{
    let mut first = 0;
    let mut count = ends.len();
    // Each step chooses between two numbers, and jumps nowhere: which half it is can't be foretold.
    while count > 1 {
        let half = count / 2;
        let middle = &ends[first + half];
        first = if comes_by(middle, span) {
            first + half
        } else {
            first
        };
        count -= half;
    }
    if first < ends.len() && comes_by(&ends[first], span) {
        first + 1
    } else {
        first
    }
}

fn comes_by(end: &Tick, span: &Span) -> bool
    ensures { result ≡ int_le end.now span.now.from }
{
    *end <= span.from
}

// Puts a claim at a place of both columns, which have room for it.
fn insert_row(ends: &mut Vec<Tick>, rest: &mut Vec<Rest>, at: usize, claim: &Claim, row: Rest)
    requires ends { (at ≤ vec_len ends.old) × (vec_len ends.old < vec_capacity ends.old) }
    requires rest { (at ≤ vec_len rest.old) × (vec_len rest.old < vec_capacity rest.old) }
    ensures ends { ends.new.items ≡ insert ends.old.items at claim.now.span.to }
    ensures rest { rest.new.items ≡ insert rest.old.items at row }
    ensures ends_len { vec_len ends.new ≡ vec_len ends.old + 1 }
    ensures rest_len { vec_len rest.new ≡ vec_len rest.old + 1 }
    ensures ends_room { vec_capacity ends.new ≡ vec_capacity ends.old }
    ensures rest_room { vec_capacity rest.new ≡ vec_capacity rest.old }
{
    let inserted = ends.insert(at, claim.span.to);
    let Ok(()) = inserted else { unreachable!() };
    let inserted = rest.insert(at, row);
    let Ok(()) = inserted else { unreachable!() };
}

// Keeps those claims of both columns that others hold.
fn keep_others(ends: &mut Vec<Tick>, rest: &mut Vec<Rest>, owner: &Owner)
    requires { length ends.old.items ≡ length rest.old.items }
    ensures claims { (zone : ℕ) → rows_of zone ends.new.items rest.new.items
        ≡ claims_of_others owner.now (rows_of zone ends.old.items rest.old.items) }
    ensures level { length ends.new.items ≡ length rest.new.items }
    ensures bound { vec_len ends.new ≤ vec_len ends.old }
    ensures ends_room { vec_capacity ends.new ≡ vec_capacity ends.old }
    ensures rest_room { vec_capacity rest.new ≡ vec_capacity rest.old }
{
    let mut kept = 0;
    for at in 0..rest.len() {
        let one = rest[at];
        if !is_same_owner(&holder_of(&one), owner) {
            let end = ends[at];
            ends[kept] = end;
            rest[kept] = one;
            kept += 1;
        }
    }
    ends.truncate(kept);
    rest.truncate(kept);
}

fn is_same_owner(one: &Owner, other: &Owner) -> bool
    ensures { result ≡ same_owner one.now other.now }
{
    one == other
}
