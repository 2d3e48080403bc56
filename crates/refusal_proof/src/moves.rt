//! What a move leads to, whenever a train goes on by it.

ghost use Rattle.std.specs.Prelude.{◌≡◌, ◌↔◌, ◌+◌, ◌<◌, ◌^◌, ℤ, pos, ◌+ℤ◌, ◌-ℤ◌, ◌<ℤ◌, ◌≤ℤ◌};
ghost use Rattle.std.specs.Prelude.{length, None, All, AllPairs, IfOk, IsTrue};
ghost use Rattle.std.specs.Int.{int_max, int_min};
ghost use Rattle.rail_types.specs.declared.limits.TheConstants.{FAR_TICK};
ghost use Rattle.rail_types.specs.Flaws.{first_flaw};
ghost use Rattle.rail_types.specs.Limits.{IsRequestWithinLimits, IsSettingsWithinLimits, IsTick};
ghost use Rattle.occupation_book.specs.Held.{held};
ghost use Rattle.stair_pieces.specs.Moves.{IsInside};
ghost use Rattle.stair_pieces.specs.Steps.{IsPlaceIn};
ghost use Rattle.refusal_proof.specs.Inside.{
  AreFreeAt,
  Goes,
  IsClaimIn,
  IsCovered,
  IsNearWindow,
  Leads,
  MovePasses,
  PassesIn,
  ReachesLess,
  claims_of,
  ticks_of_step,
};

use crate::frees::first_free;
use crate::goings::{GoingFrom, push_kept};
use crate::labels::{Label, covered};
use no_memory::NoMemory;
use occupation_book::Occupations;
use rail_types::{Claim, Network, Request, Settings, Span, Tick, Window};
use running_time::run;
use stair_pieces::{Place, entry, pieces, pieces_are_claims, standing};
use std::alloc::Global;
use tail_states::{Move, Next};

// What a move takes, its head entering at tick 0, and where it leads.
#[derive(Debug, Drop)]
struct Taking {
    claims: Vec<Claim>,
    ticks: Tick,
    next: Next,
}

// What a move takes: its pieces, and behind an end what is kept through its release.
fn taking_of(
    alloc: Global,
    net: &Network,
    settings: &Settings,
    request: &Request,
    place: &Place,
    one: &Move,
) -> Result<Taking, NoMemory>
    requires place { IsPlaceIn net.now settings.now request.now.train place.now }
    requires made { place.now.made < 2 ^ 31 }
    requires step { one.now.step.block < length net.now.blocks }
    ensures claims { IfOk result (λ taking. taking.claims.items
        ≡ claims_of net.now settings.now request.now place.now one.now) }
    ensures ticks { IfOk result (λ taking. taking.ticks
        ≡ pos (ticks_of_step net.now settings.now request.now place.now one.now.step)) }
    ensures next { IfOk result (λ taking. taking.next ≡ one.now.next) }
    ensures bound { IfOk result (λ taking. taking.ticks <ℤ pos (2 ^ 43)) }
{
    let train = &request.train;
    let block = &net.blocks.as_slice()[one.step.block as usize];
    let entered = entry(net, train, place);
    let ticks = run(block, train, settings, entered, one.step.exit);
    let mut claims = pieces(alloc, net, settings, train, place, one.step)?;
    if one.next == Next::End {
        let after = place.after(alloc, net, train, one.step)?;
        let zones = standing(alloc, net, train, &after)?;
        let release = Span {
            from: ticks,
            to: ticks + i64::from(settings.release),
        };
        push_kept(&mut claims, zones.as_slice(), &release)?;
    }
    Ok(Taking {
        claims,
        ticks,
        next: one.next,
    })
}

// The ticks of a window at which a move may be entered that ends by the horizon.
fn within_horizon(window: &Window, settings: &Settings, taking: &Taking) -> Window
    requires ticks { (pos 0 ≤ℤ taking.now.ticks) × (taking.now.ticks <ℤ pos (2 ^ 43)) }
    ensures from { result.from ≡ int_max window.now.from (pos 0) }
    ensures to { result.to
        ≡ int_min window.now.to (pos settings.now.horizon -ℤ taking.now.ticks) }
{
    Window {
        from: window.from.max(0),
        to: window.to.min(i64::from(settings.horizon) - taking.ticks),
    }
}

// The ticks of a window at which a move is entered that ends in another.
fn arriving(window: &Window, arrive: &Window, taking: &Taking) -> Window
    requires ticks { (pos 0 ≤ℤ taking.now.ticks) × (taking.now.ticks <ℤ pos (2 ^ 43)) }
    requires arrive { IsTick arrive.now.from × IsTick arrive.now.to }
    ensures from { result.from
        ≡ int_max window.now.from (arrive.now.from -ℤ taking.now.ticks) }
    ensures to { result.to ≡ int_min window.now.to (arrive.now.to -ℤ taking.now.ticks) }
{
    Window {
        from: window.from.max(arrive.from - taking.ticks),
        to: window.to.min(arrive.to - taking.ticks),
    }
}

// The ticks at which a move ends that is entered in a window.
fn leaving(window: &Window, taking: &Taking) -> Window
    requires ticks { (pos 0 ≤ℤ taking.now.ticks) × (taking.now.ticks <ℤ pos (2 ^ 43)) }
    requires from { (pos 0 ≤ℤ window.now.from) × (window.now.from ≤ℤ window.now.to) }
    requires to { window.now.to ≤ℤ FAR_TICK }
    ensures from { result.from ≡ window.now.from +ℤ taking.now.ticks }
    ensures to { result.to ≡ window.now.to +ℤ taking.now.ticks }
{
    Window {
        from: window.from + taking.ticks,
        to: window.to + taking.ticks,
    }
}

// What is left of a window behind the ticks at which a move is entered that
// ends by the last of another.
fn behind_covered(window: &Window, covered: &Window, taking: &Taking) -> Window
    requires ticks { (pos 0 ≤ℤ taking.now.ticks) × (taking.now.ticks <ℤ pos (2 ^ 43)) }
    requires to { (pos 0 ≤ℤ covered.now.to) × (covered.now.to <ℤ pos (2 ^ 44)) }
    ensures from { result.from ≡ (covered.now.to -ℤ taking.now.ticks) +ℤ pos 1 }
    ensures to { result.to ≡ window.now.to }
{
    Window {
        from: covered.to - taking.ticks + 1,
        to: window.to,
    }
}

// Whether a move ends at a tick that is covered, whenever it is entered in a
// window and the claims are free.
fn are_covered(
    taking: &Taking,
    number: u32,
    claims: &[Claim],
    book: &Occupations,
    labels: &[Label],
    enters: &Window,
) -> bool
    requires ticks { (pos 0 ≤ℤ taking.now.ticks) × (taking.now.ticks <ℤ pos (2 ^ 43)) }
    requires claims { All (IsClaimIn (length book.now)) claims.now }
    requires order { AllPairs ReachesLess labels.now }
    requires enters { (pos 0 ≤ℤ enters.now.from) × (enters.now.to ≤ℤ FAR_TICK) }
    ensures { IsTrue result ↔ ((enter : ℤ) → IsInside enters.now enter
        → AreFreeAt (held book.now) claims.now enter
        → IsCovered labels.now number (enter +ℤ taking.now.ticks)) }
{
    let mut rest = *enters;
    while let Some(free) = first_free(claims, book, &rest) {
        let Some(covered) = covered(labels, number, &leaving(&free, taking)) else {
            return false;
        };
        rest = behind_covered(&free, &covered, taking);
    }
    true
}

// Whether claims are free at no tick of a window.
fn are_free_nowhere(claims: &[Claim], book: &Occupations, window: &Window) -> bool
    requires claims { All (IsClaimIn (length book.now)) claims.now }
    requires window { IsNearWindow window.now }
    ensures { IsTrue result ↔ ((tick : ℤ) → IsInside window.now tick
        → ¬ AreFreeAt (held book.now) claims.now tick) }
{
    let Some(_rest) = first_free(claims, book, window) else {
        return true;
    };
    false
}

// Whether a move leads to what is covered, or ends outside a window, whenever it is entered in
// another and its claims are free.
fn passes(
    taking: &Taking,
    settings: &Settings,
    book: &Occupations,
    arrive: &Window,
    labels: &[Label],
    window: &Window,
) -> bool
    requires ticks { (pos 0 ≤ℤ taking.now.ticks) × (taking.now.ticks <ℤ pos (2 ^ 43)) }
    requires claims { All (IsClaimIn (length book.now)) taking.now.claims.items }
    requires settings { IsSettingsWithinLimits settings.now }
    requires arrive { IsTick arrive.now.from × IsTick arrive.now.to }
    requires order { AllPairs ReachesLess labels.now }
    ensures { IsTrue result ↔ PassesIn settings.now.horizon
        (AreFreeAt (held book.now) taking.now.claims.items)
        (Leads labels.now arrive.now taking.now.next) taking.now.ticks window.now }
{
    let claims = taking.claims.as_slice();
    let enters = within_horizon(window, settings, taking);
    match taking.next {
        Next::At(number) => are_covered(taking, number, claims, book, labels, &enters),
        Next::End => are_free_nowhere(claims, book, &arriving(&enters, arrive, taking)),
    }
}

/// Whether a move leads to what is covered, or ends outside the window of arrival, whenever a train
/// goes on by it and it is free.
pub(crate) fn move_passes(
    alloc: Global,
    net: &Network,
    settings: &Settings,
    book: &Occupations,
    request: &Request,
    labels: &[Label],
    onward: &GoingFrom<'_>,
    one: &Move,
) -> Result<bool, NoMemory>
    requires flawless { first_flaw net.now ≡ None }
    requires settings { IsSettingsWithinLimits settings.now }
    requires zones { length book.now ≡ net.now.zones }
    requires request { IsRequestWithinLimits request.now }
    requires order { AllPairs ReachesLess labels.now }
    requires going { All (IsClaimIn (length book.now)) onward.now.going.now.claims }
    requires place { IsPlaceIn net.now settings.now request.now.train onward.now.place.now }
    requires made { onward.now.place.now.made < 2 ^ 31 }
    requires step { one.now.step.block < length net.now.blocks }
    ensures { IfOk result (λ yes. IsTrue yes ↔ MovePasses net.now settings.now request.now
        (held book.now) labels.now onward.now.going.now onward.now.place.now one.now) }
{
    pieces_are_claims();
    let going = onward.going;
    let mut taking = taking_of(alloc, net, settings, request, onward.place, one)?;
    let arrive = &request.arrive;
    if !passes(&taking, settings, book, arrive, labels, &going.second) {
        return Ok(false);
    }
    // Where the train waits first, the claims of the wait are to be free too.
    taking.claims.extend_from_slice(going.claims.as_slice())?;
    Ok(passes(&taking, settings, book, arrive, labels, &going.first))
}
