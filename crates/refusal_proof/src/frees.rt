//! The ticks of a window at which claims are free, each found behind the
//! claims that they clash with.

ghost use Rattle.std.specs.Prelude.{◌≡◌, ◌+◌, ◌<◌, ℤ, ◌+ℤ◌, ◌-ℤ◌, ◌≤ℤ◌, All, IfSome, IsNone};
ghost use Rattle.std.specs.Prelude.{length};
ghost use Rattle.rail_types.specs.Limits.{IsNearSpan};
ghost use Rattle.occupation_book.specs.Held.{IsFree, held};
ghost use Rattle.stair_pieces.specs.Moves.{IsInside};
ghost use Rattle.refusal_proof.specs.Inside.{AreFreeAt, IsBehind, IsClaimIn, IsFar, IsFromFirst};
ghost use Rattle.refusal_proof.specs.Inside.{IsNearWindow, later};

use occupation_book::Occupations;
use rail_types::{Claim, Span, Window, first_clashes_are_first};

// A claim, as many ticks later as a window begins at.
fn at_begin(claim: &Claim, window: &Window) -> Claim
    requires claim { IsFar claim.now.span.from × IsFar claim.now.span.to }
    requires window { IsNearWindow window.now }
    requires some { window.now.from ≤ℤ window.now.to }
    ensures zone { result.zone ≡ claim.now.zone }
    ensures from { result.span.from ≡ claim.now.span.from +ℤ window.now.from }
    ensures to { result.span.to ≡ claim.now.span.to +ℤ window.now.from }
{
    Claim {
        zone: claim.zone,
        span: Span {
            from: claim.span.from + window.from,
            to: claim.span.to + window.from,
        },
    }
}

// What is left of a window from the tick on at which a claim begins where another ends.
fn behind_other(window: &Window, claim: &Claim, other: &Claim) -> Window
    requires claim { IsFar claim.now.span.from × IsFar claim.now.span.to }
    requires other { IsNearSpan other.now.span }
    ensures from { result.from ≡ other.now.span.to -ℤ claim.now.span.from }
    ensures to { result.to ≡ window.now.to }
{
    Window {
        from: other.span.to - claim.span.from,
        to: window.to,
    }
}

// What is left of a window behind the first ticks at which a claim is not free, None
// where it is free at the first.
fn behind_clash_of(claim: &Claim, book: &Occupations, window: &Window) -> Option<Window>
    requires claim { IsClaimIn (length book.now) claim.now }
    requires window { IsNearWindow window.now }
    requires some { window.now.from ≤ℤ window.now.to }
    ensures free { IsNone result → IsFree (held book.now) (later window.now.from claim.now) }
    ensures behind { IfSome result
        (IsBehind (λ tick. IsFree (held book.now) (later tick claim.now)) window.now) }
{
    // These laws say what the first clash is, and that the claims of a book are near.
    first_clashes_are_first();
    book.zones();
    let Some((other, _)) = book.first_clashing(&at_begin(claim, window)) else {
        return None;
    };
    Some(behind_other(window, claim, &other))
}

// What is left of a window from the first tick on at which a claim is free; None where there
// is none.
fn first_free_of(claim: &Claim, book: &Occupations, window: &Window) -> Option<Window>
    requires claim { IsClaimIn (length book.now) claim.now }
    requires window { IsNearWindow window.now }
    ensures found { IfSome result
        (IsFromFirst (λ tick. IsFree (held book.now) (later tick claim.now)) window.now) }
    ensures none { IsNone result → (tick : ℤ) → IsInside window.now tick
        → ¬ IsFree (held book.now) (later tick claim.now) }
{
    let mut rest = *window;
    while rest.from <= rest.to {
        let Some(behind) = behind_clash_of(claim, book, &rest) else {
            return Some(rest);
        };
        rest = behind;
    }
    None
}

// The place behind one of so many, which is the first one behind the last.
fn next_place(at: usize, count: usize) -> usize
    requires { at < count }
    ensures on { at + 1 < count → result ≡ at + 1 }
    ensures round { at + 1 ≡ count → result ≡ 0 }
{
    if at + 1 < count { at + 1 } else { 0 }
}

/// What is left of a window from the first tick on at which all claims, that stand here for tick 0,
/// are free; None where there is none.
pub(crate) fn first_free(claims: &[Claim], book: &Occupations, window: &Window) -> Option<Window>
    requires claims { All (IsClaimIn (length book.now)) claims.now }
    requires window { IsNearWindow window.now }
    ensures found { IfSome result
        (IsFromFirst (AreFreeAt (held book.now) claims.now) window.now) }
    ensures none { IsNone result → (tick : ℤ) → IsInside window.now tick
        → ¬ AreFreeAt (held book.now) claims.now tick }
{
    if window.from > window.to {
        return None;
    }
    // The `known` claims in a row that stand before `at`, where the first claim follows the last,
    // are all free at the first tick of `rest`. At no tick before it are all claims free.
    let mut rest = *window;
    let mut known = 0;
    let mut at = 0;
    while known < claims.len() {
        let next = first_free_of(&claims[at], book, &rest)?;
        if next.from > rest.from {
            known = 1;
        } else {
            known += 1;
        }
        rest = next;
        at = next_place(at, claims.len());
    }
    Some(rest)
}
