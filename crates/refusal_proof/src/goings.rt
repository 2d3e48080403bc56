//! The ticks at which a train may go on that reached a place within a window.

ghost use Rattle.std.specs.Prelude.{◌≡◌, ◌↔◌, ℕ, ◌+◌, ◌-◌, ◌<◌, ◌^◌, ◌++◌, ℤ, pos, neg_ℤ, ◌+ℤ◌};
ghost use Rattle.std.specs.Prelude.{◌-ℤ◌, ◌<ℤ◌, ◌≤ℤ◌, true, [], List as list_of, length, None};
ghost use Rattle.std.specs.Prelude.{Some, All, IfOk, OnOk, slice_get};
ghost use Rattle.rail_types.specs.declared.trains.Stop.{Stop as stop_type};
ghost use Rattle.std.specs.Int.{int_max, int_min};
ghost use Rattle.rail_types.specs.Flaws.{first_flaw};
ghost use Rattle.rail_types.specs.Limits.{IsSettingsWithinLimits};
ghost use Rattle.rail_types.specs.Occupation.{HeldClaim};
ghost use Rattle.occupation_book.specs.Held.{IsFree, held};
ghost use Rattle.stair_pieces.specs.Moves.{IsInside, IsPlace};
ghost use Rattle.stair_pieces.specs.Pieces.{kept};
ghost use Rattle.stair_pieces.specs.Steps.{IsPlaceIn};
ghost use Rattle.refusal_proof.specs.Proofs.{claims_held};
ghost use Rattle.refusal_proof.specs.Inside.{AreGoings, CanGoOn, Goes, IsClaimIn, StaysUntil};
ghost use Rattle.refusal_proof.specs.Inside.{stay as stay_of};

use no_memory::NoMemory;
use occupation_book::Occupations;
use rail_types::{Claim, List, Network, Request, Settings, Span, Window, first_clashes_are_first};
use stair_pieces::{Place, pieces_are_claims, standing};
use std::alloc::Global;

/// The ticks at which a train may go on: those of the first window at which the claims, that stand
/// here for tick 0, are free, and those of the second.
#[derive(Debug, Drop)]
pub(crate) struct Going {
    pub(crate) claims: List<Claim>,
    pub(crate) first: Window,
    pub(crate) second: Window,
}

/// A place from which a train goes on, and when it may.
#[derive(Clone, Copy)]
pub(crate) struct GoingFrom<'a> {
    pub(crate) place: &'a Place,
    pub(crate) going: &'a Going,
}

/// Puts zones that are kept over a span behind the claims.
pub(crate) fn push_kept(claims: &mut Vec<Claim>, zones: &[u32], span: &Span) -> Result<(), NoMemory>
    ensures { OnOk result (claims.new.items
        ≡ claims.old.items ++ kept zones.now span.now.from span.now.to) }
{
    if span.from >= span.to {
        return Ok(());
    }
    for zone in zones {
        claims.push(Claim {
            zone: *zone,
            span: *span,
        })?;
    }
    Ok(())
}

// The dwell of the stop that a train makes which stands at a place.
fn dwell_of(request: &Request, place: &Place) -> u32
    ensures { (stop : stop_type)
        → slice_get request.now.stops (place.now.made - 1) ≡ Some stop → result ≡ stop.dwell }
{
    match request.stops.get(place.made.saturating_sub(1) as usize) {
        Some(stop) => stop.dwell,
        None => 0,
    }
}

// A wait of so many ticks, which ends at tick 0.
fn wait_of(dwell: u32) -> Span
    ensures from { result.from ≡ neg_ℤ (pos dwell) }
    ensures to { result.to ≡ pos 0 }
    ensures bound { neg_ℤ (pos (2 ^ 32)) <ℤ result.from }
{
    Span {
        from: -i64::from(dwell),
        to: 0,
    }
}

// A zone that is kept for a window.
fn kept_for(zone: u32, window: &Window) -> Claim
    ensures zone { result.zone ≡ zone }
    ensures from { result.span.from ≡ window.now.from }
    ensures to { result.span.to ≡ window.now.to }
{
    Claim {
        zone,
        span: Span {
            from: window.from,
            to: window.to,
        },
    }
}

// A window, up to the begin of a claim, or to its own.
fn until(window: &Window, other: &Claim) -> Window
    ensures from { result.from ≡ window.now.from }
    ensures to { result.to ≡ int_max other.now.span.from window.now.from }
{
    Window {
        from: window.from,
        to: other.span.from.max(window.from),
    }
}

// A window, which ends where a zone is no longer free from its begin on.
fn stay_on(zone: u32, book: &Occupations, window: &Window) -> Window
    requires zone { zone < length book.now }
    ensures from { result.from ≡ window.now.from }
    ensures to { (enter : ℤ) → window.now.from <ℤ enter → enter ≤ℤ window.now.to
        → IsFree (held book.now) (stay_of window.now.from enter zone) ↔ (enter ≤ℤ result.to) }
{
    first_clashes_are_first();
    let Some((other, _)) = book.first_clashing(&kept_for(zone, window)) else {
        return *window;
    };
    until(window, &other)
}

// The same of all zones.
fn stay(zones: &[u32], book: &Occupations, window: &Window) -> Window
    requires zones { All (λ zone. zone < length book.now) zones.now }
    ensures from { result.from ≡ window.now.from }
    ensures to { StaysUntil (held book.now) zones.now window.now result.to }
{
    let mut rest = *window;
    for zone in zones {
        rest = shorter(&rest, &stay_on(*zone, book, window));
    }
    rest
}

fn shorter(one: &Window, other: &Window) -> Window
    ensures from { result.from ≡ one.now.from }
    ensures to { result.to ≡ int_min one.now.to other.now.to }
{
    Window {
        from: one.from,
        to: one.to.min(other.to),
    }
}

// The ticks of a window, later by a wait; behind the horizon it does not matter which.
fn waited(window: &Window, settings: &Settings, wait: &Span) -> Window
    requires settings { IsSettingsWithinLimits settings.now }
    requires wait { (neg_ℤ (pos (2 ^ 32)) <ℤ wait.now.from) × (wait.now.from ≤ℤ pos 0) }
    ensures from { result.from
        ≡ int_min window.now.from (pos settings.now.horizon +ℤ pos 1) -ℤ wait.now.from }
    ensures to { result.to ≡ int_min window.now.to (pos settings.now.horizon) -ℤ wait.now.from }
    ensures bound { result.to <ℤ pos (2 ^ 33) }
{
    let horizon = i64::from(settings.horizon);
    Window {
        from: window.from.min(horizon + 1) - wait.from,
        to: window.to.min(horizon) - wait.from,
    }
}

// The ticks behind a window, up to the end of another.
fn behind_first(first: &Window, other: &Window) -> Window
    requires { first.now.to <ℤ pos (2 ^ 33) }
    ensures from { result.from ≡ first.now.to +ℤ pos 1 }
    ensures to { result.to ≡ other.now.to }
{
    Window {
        from: first.to + 1,
        to: other.to,
    }
}

// From the last tick of a window to the horizon.
fn behind(window: &Window, settings: &Settings) -> Window
    ensures from { result.from ≡ int_min window.now.to (pos settings.now.horizon) }
    ensures to { result.to ≡ pos settings.now.horizon }
{
    let horizon = i64::from(settings.horizon);
    Window {
        from: window.to.min(horizon),
        to: horizon,
    }
}

// The ticks at which a train goes on that stands at a place: while it has just dwelt, and later
// while the zones that it keeps since the last tick of the window are free.
fn going_on_from_stand(
    alloc: Global,
    net: &Network,
    settings: &Settings,
    book: &Occupations,
    request: &Request,
    place: &Place,
    window: &Window,
) -> Result<Going, NoMemory>
    requires flawless { first_flaw net.now ≡ None }
    requires settings { IsSettingsWithinLimits settings.now }
    requires zones { length book.now ≡ net.now.zones }
    requires place { IsPlaceIn net.now settings.now request.now.train place.now }
    requires among { IsPlace net.now request.now place.now }
    requires stands { place.now.standing ≡ true }
    requires some { window.now.from ≤ℤ window.now.to }
    ensures goes { IfOk result (λ going. AreGoings settings.now (held book.now) going
        (CanGoOn net.now request.now (claims_held book.now) place.now window.now)) }
    ensures claims { IfOk result (λ going. All (IsClaimIn (length book.now)) going.claims) }
{
    pieces_are_claims();
    let zones = standing(alloc, net, &request.train, place)?;
    let wait = wait_of(dwell_of(request, place));
    let mut claims = Vec::new(alloc);
    push_kept(&mut claims, zones.as_slice(), &wait)?;
    let first = waited(window, settings, &wait);
    let stay = stay(zones.as_slice(), book, &behind(window, settings));
    let second = behind_first(&first, &stay);
    Ok(Going {
        claims: List::from_vec(claims),
        first,
        second,
    })
}

/// The ticks of a window and no others.
pub(crate) fn at_once(alloc: Global, window: &Window) -> Going
    ensures goes { (kept : list_of HeldClaim) (enter : ℤ)
        → Goes kept result enter ↔ IsInside window.now enter }
    ensures claims { result.claims ≡ [] }
{
    Going {
        claims: List::new(alloc),
        first: *window,
        second: Window { from: 1, to: 0 },
    }
}

/// The ticks at which a train goes on that reached a place within a window.
pub(crate) fn going_on(
    alloc: Global,
    net: &Network,
    settings: &Settings,
    book: &Occupations,
    request: &Request,
    place: &Place,
    window: &Window,
) -> Result<Going, NoMemory>
    requires flawless { first_flaw net.now ≡ None }
    requires settings { IsSettingsWithinLimits settings.now }
    requires zones { length book.now ≡ net.now.zones }
    requires place { IsPlaceIn net.now settings.now request.now.train place.now }
    requires among { IsPlace net.now request.now place.now }
    requires some { window.now.from ≤ℤ window.now.to }
    ensures goes { IfOk result (λ going. AreGoings settings.now (held book.now) going
        (CanGoOn net.now request.now (claims_held book.now) place.now window.now)) }
    ensures claims { IfOk result (λ going. All (IsClaimIn (length book.now)) going.claims) }
{
    if !place.standing {
        return Ok(at_once(alloc, window));
    }
    let going = going_on_from_stand(alloc, net, settings, book, request, place, window)?;
    Ok(going)
}
