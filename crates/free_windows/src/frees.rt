//! The ticks at which claims are free.

ghost use Rattle.std.specs.Prelude.{◌≡◌, ℕ, ◌+◌, ◌≤◌, ◌<◌, ℤ, pos, ◌+ℤ◌, ◌-ℤ◌, ◌<ℤ◌, ◌≤ℤ◌, ◌↔◌};
ghost use Rattle.std.specs.Prelude.{◌-◌, false, All, AllPairs, IfOk, IfSome, IsNone, IsTrue};
ghost use Rattle.std.specs.Prelude.{length};
ghost use Rattle.std.specs.Int.{int_min};
ghost use Rattle.std.specs.List.{AllWithin, HoldsAt};
ghost use Rattle.rail_types.specs.declared.limits.TheConstants.{FAR_TICK};
ghost use Rattle.rail_types.specs.Limits.{IsNear, IsNearSpan};
ghost use Rattle.rail_types.specs.Occupation.{HasTicks};
ghost use Rattle.occupation_book.specs.Held.{AreInOrder, held};
ghost use Rattle.free_windows.specs.Free.{Fits, Holds, IsFreeOf, moved};
ghost use Rattle.free_windows.specs.Starts.{IsPiece, IsNearWindow, IsNextWindow, AreWindowsOf};

use no_memory::NoMemory;
use occupation_book::{Occupations, ZoneClaims};
use rail_types::{Claim, Span, Window};
use std::alloc::Global;

// How far a hint is followed, until a search among all claims of a zone takes less.
const MOST_STEPS: usize = 8;

/// The ticks of a window to which claims can be moved, that stand here for tick 0, so that each of
/// them is free: ascending windows that neither overlap nor touch.
pub fn starts(
    alloc: Global,
    pieces: &[Claim],
    book: &Occupations,
    within: &Window,
) -> Result<Vec<Window>, NoMemory>
    requires pieces { All (IsPiece (length book.now)) pieces.now }
    requires within { IsNearWindow within.now }
    ensures { IfOk result (λ windows.
        AreWindowsOf (Fits (held book.now) pieces.now) within.now windows.items) }
{
    let mut windows = Vec::new(alloc);
    let mut rest = *within;
    while let Some(next) = next_start(pieces, book, &rest) {
        windows.push(next)?;
        rest = behind(&rest, &next);
    }
    Ok(windows)
}

/// The first free ticks of a window, as many as follow one another.
pub fn next_start(pieces: &[Claim], book: &Occupations, within: &Window) -> Option<Window>
    requires pieces { All (IsPiece (length book.now)) pieces.now }
    requires within { IsNearWindow within.now }
    ensures found { IfSome result (IsNextWindow (Fits (held book.now) pieces.now) within.now) }
    ensures none { IsNone result → (tick : ℤ) → Holds within.now tick
        → ¬ Fits (held book.now) pieces.now tick }
{
    next_start_near(pieces, book, &mut [], within)
}

/// The same by hints, which it leaves for the next call: of each zone how many of its claims had
/// ended where it was last asked for. Any hints do, and none where the list is too short; good ones
/// save a search among the claims.
pub fn next_start_near(
    pieces: &[Claim],
    book: &Occupations,
    hints: &mut [usize],
    within: &Window,
) -> Option<Window>
    requires pieces { All (IsPiece (length book.now)) pieces.now }
    requires within { IsNearWindow within.now }
    ensures found { IfSome result (IsNextWindow (Fits (held book.now) pieces.now) within.now) }
    ensures none { IsNone result → (tick : ℤ) → Holds within.now tick
        → ¬ Fits (held book.now) pieces.now tick }
{
    if within.from > within.to {
        return None;
    }
    // The `known` pieces in a row that stand before `at`, where the first piece follows the last,
    // all leave `ticks` free, which are the first ticks of `rest`. No tick before `rest` fits.
    let mut rest = *within;
    let mut ticks = rest;
    let mut known = 0;
    let mut at = 0;
    while known < pieces.len() {
        let piece = &pieces[at];
        let next = next_of(book.of_zone(piece.zone), piece, hints, &rest)?;
        if next.from > rest.from {
            rest.from = next.from;
            ticks = next;
            known = 1;
        } else {
            ticks = until_either_ends(&ticks, &next);
            known += 1;
        }
        at = next_place(at, pieces.len());
    }
    Some(ticks)
}

// The place behind one of so many, which is the first one behind the last.
fn next_place(at: usize, count: usize) -> usize
    requires { at < count }
    ensures on { at + 1 < count → result ≡ at + 1 }
    ensures round { at + 1 ≡ count → result ≡ 0 }
{
    if at + 1 < count { at + 1 } else { 0 }
}

// The ticks of two windows with one first tick that stand in both.
fn until_either_ends(one: &Window, other: &Window) -> Window
    ensures from { result.from ≡ one.now.from }
    ensures to { result.to ≡ int_min one.now.to other.now.to }
{
    Window {
        from: one.from,
        to: one.to.min(other.to),
    }
}

// The first ticks of a window at which one claim is free of those of its zone, as many as follow
// one another.
fn next_of(kept: &ZoneClaims, piece: &Claim, hints: &mut [usize], within: &Window) -> Option<Window>
    requires zone { AreInOrder piece.now.zone kept.now.claims }
    requires near { IsNearSpan piece.now.span }
    requires ticks { HasTicks piece.now.span }
    requires within { IsNearWindow within.now }
    requires some { within.now.from ≤ℤ within.now.to }
    ensures found { IfSome result (IsNextWindow (IsFreeOf kept.now.claims piece.now) within.now) }
    ensures none { IsNone result → (tick : ℤ) → Holds within.now tick
        → ¬ IsFreeOf kept.now.claims piece.now tick }
{
    let start = at_start(piece, within);
    let first = first_ending_after(kept, piece.zone, hints, &start);
    // The piece is free at no tick before `rest`. Where it is moved to the first tick of `rest`,
    // the claims before `number` have ended as it begins, and the others have not.
    let mut rest = *within;
    for number in first..kept.len() {
        let next = kept.span_at(number);
        if at_start(piece, &rest).to <= next.from {
            return Some(until_it_begins(&next, piece, &rest));
        }
        rest = once_it_ends(&next, piece, &rest);
        if rest.from > rest.to {
            return None;
        }
    }
    Some(rest)
}

// How many claims of a zone end before a span begins, by the hint of the zone, which is left there.
fn first_ending_after(kept: &ZoneClaims, zone: u32, hints: &mut [usize], span: &Span) -> usize
    requires { AreInOrder zone kept.now.claims }
    ensures bound { result ≤ length kept.now.claims }
    ensures before { AllWithin (λ one. one.0.span.to ≤ℤ span.now.from) kept.now.claims 0 result }
    ensures after { AllWithin (λ one. span.now.from <ℤ one.0.span.to) kept.now.claims
        result (length kept.now.claims) }
{
    let Some(hint) = hints.get_mut(zone as usize) else {
        return kept.first_ending_after(zone, span);
    };
    let first = first_ending_near(kept, zone, *hint, span);
    *hint = first;
    first
}

// The same by a hint.
fn first_ending_near(kept: &ZoneClaims, zone: u32, hint: usize, span: &Span) -> usize
    requires { AreInOrder zone kept.now.claims }
    ensures bound { result ≤ length kept.now.claims }
    ensures before { AllWithin (λ one. one.0.span.to ≤ℤ span.now.from) kept.now.claims 0 result }
    ensures after { AllWithin (λ one. span.now.from <ℤ one.0.span.to) kept.now.claims
        result (length kept.now.claims) }
{
    if !have_ended(kept, hint, span) {
        return kept.first_ending_after(zone, span);
    }
    for at in hint..kept.len() {
        if at - hint >= MOST_STEPS {
            return kept.first_ending_after(zone, span);
        }
        if !ends_by(kept, at, span) {
            return at;
        }
    }
    kept.len()
}

// Whether there are so many claims, the last of which has ended as a span begins.
fn have_ended(kept: &ZoneClaims, count: usize, span: &Span) -> bool
    ensures bound { IsTrue result → count ≤ length kept.now.claims }
    ensures ended { IsTrue result → 0 < count
        → HoldsAt (λ one. one.0.span.to ≤ℤ span.now.from) kept.now.claims (count - 1) }
{
    count <= kept.len() && (count == 0 || ends_by(kept, count - 1, span))
}

// Whether there is a claim at a place that has ended as a span begins.
fn ends_by(kept: &ZoneClaims, at: usize, span: &Span) -> bool
    ensures bound { IsTrue result → at < length kept.now.claims }
    ensures ended { IsTrue result
        → HoldsAt (λ one. one.0.span.to ≤ℤ span.now.from) kept.now.claims at }
    ensures late { result ≡ false → at < length kept.now.claims
        → HoldsAt (λ one. span.now.from <ℤ one.0.span.to) kept.now.claims at }
{
    at < kept.len() && kept.span_at(at).to <= span.from
}

fn at_start(piece: &Claim, within: &Window) -> Span
    requires near { IsNearSpan piece.now.span }
    requires within { IsNearWindow within.now }
    requires some { within.now.from ≤ℤ within.now.to }
    ensures from { result.from ≡ within.now.from +ℤ piece.now.span.from }
    ensures to { result.to ≡ within.now.from +ℤ piece.now.span.to }
{
    Span {
        from: within.from + piece.span.from,
        to: within.from + piece.span.to,
    }
}

// What is left of a window from the tick on at which a claim begins as a span ends.
fn once_it_ends(next: &Span, piece: &Claim, within: &Window) -> Window
    requires near { IsNear piece.now.span.from × IsNear next.now.to }
    ensures from { result.from ≡ next.now.to -ℤ piece.now.span.from }
    ensures to { result.to ≡ within.now.to }
{
    Window {
        from: next.to - piece.span.from,
        to: within.to,
    }
}

fn until_it_begins(next: &Span, piece: &Claim, within: &Window) -> Window
    requires near { IsNear piece.now.span.to × IsNear next.now.from }
    ensures from { result.from ≡ within.now.from }
    ensures to { result.to ≡ int_min within.now.to (next.now.from -ℤ piece.now.span.to) }
{
    Window {
        from: within.from,
        to: within.to.min(next.from - piece.span.to),
    }
}

// What is left of a window behind its first ticks.
fn behind(window: &Window, ticks: &Window) -> Window
    requires near { ticks.now.to ≤ℤ FAR_TICK }
    ensures from { result.from ≡ ticks.now.to +ℤ pos 1 }
    ensures to { result.to ≡ window.now.to }
{
    Window {
        from: ticks.to + 1,
        to: window.to,
    }
}
