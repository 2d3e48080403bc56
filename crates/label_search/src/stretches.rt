//! The first ticks of a window that spans in order leave free.

ghost use Rattle.rail_types.specs.declared.limits.TheConstants.{FAR_TICK};
ghost use Rattle.std.specs.Prelude.{◌≡◌, ◌<◌, ◌≤◌, ◌-◌, pos, ◌+ℤ◌, ◌-ℤ◌, ◌<ℤ◌, ◌≤ℤ◌, false};
ghost use Rattle.std.specs.Prelude.{length, IsTrue};
ghost use Rattle.std.specs.Int.{int_min};
ghost use Rattle.std.specs.List.{AllWithin};
ghost use Rattle.rail_types.specs.Occupation.{HasTicks};
ghost use Rattle.label_search.specs.Spans.{IsFreeOf};
ghost use Rattle.label_search.specs.Spans.{IsZone};
ghost use Rattle.free_windows.specs.Starts.{IsNearWindow, IsStretch};
ghost use Rattle.rail_types.specs.Limits.{IsNear};

use rail_types::{Claim, Span, Window};

// The first ticks of a window, all of which are free or none.
#[derive(Clone, Copy)]
pub(crate) struct Stretch {
    pub(crate) free: bool,
    pub(crate) ticks: Window,
}

pub(crate) fn stretch_of(kept: &[Span], piece: &Claim, within: &Window) -> Stretch
    requires zone { IsZone kept.now }
    requires near { IsNear piece.now.span.from × IsNear piece.now.span.to }
    requires ticks { HasTicks piece.now.span }
    requires within { IsNearWindow within.now }
    requires some { within.now.from ≤ℤ within.now.to }
    ensures { IsStretch (IsFreeOf kept.now piece.now) within.now result.free result.ticks }
{
    let start = at_start(piece, within);
    let at = first_ending_after(kept, &start);
    let Some(next) = kept.get(at) else {
        return Stretch {
            free: true,
            ticks: *within,
        };
    };
    if next.from < start.to {
        Stretch {
            free: false,
            ticks: until_it_ends(next, piece, within),
        }
    } else {
        Stretch {
            free: true,
            ticks: until_it_begins(next, piece, within),
        }
    }
}

fn at_start(piece: &Claim, within: &Window) -> Span
    requires near { IsNear piece.now.span.from × IsNear piece.now.span.to }
    requires within { IsNearWindow within.now }
    requires some { within.now.from ≤ℤ within.now.to }
    ensures from { result.from ≡ within.now.from +ℤ piece.now.span.from }
    ensures to { result.to ≡ within.now.from +ℤ piece.now.span.to }
{
    Span {
        from: within.from + piece.span.from,
        to: within.from + piece.span.to,
    }
}

fn until_it_ends(next: &Span, piece: &Claim, within: &Window) -> Window
    requires near { IsNear piece.now.span.from × IsNear next.now.to }
    ensures from { result.from ≡ within.now.from }
    ensures to { result.to ≡ int_min within.now.to ((next.now.to -ℤ piece.now.span.from) -ℤ pos 1) }
{
    Window {
        from: within.from,
        to: within.to.min(next.to - piece.span.from - 1),
    }
}

fn until_it_begins(next: &Span, piece: &Claim, within: &Window) -> Window
    requires near { IsNear piece.now.span.to × IsNear next.now.from }
    ensures from { result.from ≡ within.now.from }
    ensures to { result.to ≡ int_min within.now.to (next.now.from -ℤ piece.now.span.to) }
{
    Window {
        from: within.from,
        to: within.to.min(next.from - piece.span.to),
    }
}

// What is left of a window behind its first ticks.
pub(crate) fn behind(window: &Window, ticks: &Window) -> Window
    requires near { ticks.now.to ≤ℤ FAR_TICK }
    ensures from { result.from ≡ ticks.now.to +ℤ pos 1 }
    ensures to { result.to ≡ window.now.to }
{
    Window {
        from: ticks.to + 1,
        to: window.to,
    }
}

// How many of a zone's spans end before this one begins. Mostly these are all, or all but the last,
// so that these are looked at first.
pub(crate) fn first_ending_after(kept: &[Span], span: &Span) -> usize
    requires { IsZone kept.now }
    ensures bound { result ≤ length kept.now }
    ensures before { AllWithin (λ one. one.to ≤ℤ span.now.from) kept.now 0 result }
    ensures after { AllWithin (λ one. span.now.from <ℤ one.to) kept.now result (length kept.now) }
{
    let count = kept.len();
    if all_end_before(kept, count, span) {
        return count;
    }
    if all_end_before(kept, count - 1, span) {
        return count - 1;
    }
    kept.partition_point(|one| one.to <= span.from)
}

// Whether so many of a zone's spans end before this one begins, by the last of them.
fn all_end_before(kept: &[Span], count: usize, span: &Span) -> bool
    requires zone { IsZone kept.now }
    requires count { count ≤ length kept.now }
    ensures before { IsTrue result → AllWithin (λ one. one.to ≤ℤ span.now.from) kept.now 0 count }
    ensures some { result ≡ false → 0 < count }
    ensures after { result ≡ false → AllWithin (λ one. span.now.from <ℤ one.to) kept.now (count - 1)
        (length kept.now) }
{
    if count == 0 {
        return true;
    }
    ends_before(&kept[count - 1], span)
}

// Whether a span ends before another begins.
fn ends_before(one: &Span, span: &Span) -> bool
    ensures before { IsTrue result → one.now.to ≤ℤ span.now.from }
    ensures after { result ≡ false → span.now.from <ℤ one.now.to }
{
    one.to <= span.from
}
