//! The ticks that labels have, by the places that they reach.

ghost use Rattle.rail_types.specs.declared.limits.TheConstants.{FAR_TICK};
ghost use Rattle.std.specs.Prelude.{◌≡◌, ◌<◌, ℕ, ℤ, pos, ◌+ℤ◌, ◌<ℤ◌, ◌≤ℤ◌, [], IfOk, IsTrue};
ghost use Rattle.std.specs.Prelude.{◌≤◌, false, length, List as list_of};
ghost use Rattle.std.specs.List.{HoldsAt};
ghost use Rattle.free_windows.specs.Free.{Holds};
ghost use Rattle.rail_types.specs.Limits.{IsNear};
ghost use Rattle.free_windows.specs.Starts.{IsNearWindow, IsStretch};
ghost use Rattle.label_search.specs.Longer.{IsLonger};
ghost use Rattle.label_search.specs.declared.labels.Label.{Label as label_type};
ghost use Rattle.label_search.specs.Labels.{AreCovered, IsUnseen, one_tick as tick_claim};

use crate::stretches::{Stretch, first_ending_after, stretch_of};
use no_memory::NoMemory;
use rail_types::{Claim, Span, Window};
use std::alloc::Global;
use std::marker::Model;

/// Ticks, as spans that do not overlap, in order.
#[derive(Drop)]
pub(crate) struct Seen {
    spans: Vec<Span>,
}

impl Model for Seen {
    ghost use Rattle.std.specs.Prelude.{List};
    ghost use Rattle.rail_types.specs.declared.paths.Span.{Span};
    ghost use Rattle.label_search.specs.Spans.{IsZone};

    ghost Value = { List Span };

    ghost view = { λ a. a.spans.items };

    ghost invariant = { λ a. IsZone a.spans.items };
}

impl Seen {
    pub(crate) fn new(alloc: Global) -> Seen
        ensures { result ≡ [] }
    {
        Seen {
            spans: Vec::new(alloc),
        }
    }

    // The first ticks of a window, none or all of which are there.
    pub(crate) fn stretch(&self, within: &Window) -> Stretch
        requires within { IsNearWindow within.now }
        requires some { within.now.from ≤ℤ within.now.to }
        ensures { IsStretch (IsUnseen self.now) within.now result.free result.ticks }
    {
        stretch_of(self.spans.as_slice(), &one_tick(), within)
    }

    // Whether all ticks of a window are there, as far as the first of them tell.
    pub(crate) fn has(&self, within: &Window) -> bool
        requires within { IsNearWindow within.now }
        requires some { within.now.from ≤ℤ within.now.to }
        ensures { IsTrue result → (tick : ℤ) → Holds within.now tick → ¬ IsUnseen self.now tick }
    {
        let stretch = self.stretch(within);
        if stretch.free || stretch.ticks.to < within.to {
            return false;
        }
        true
    }

    // Adds ticks none of which is there.
    pub(crate) fn insert(&mut self, ticks: &Window) -> Result<(), NoMemory>
        requires near { IsNear ticks.now.from × (ticks.now.to <ℤ FAR_TICK) }
        requires some { ticks.now.from ≤ℤ ticks.now.to }
        requires unseen { (tick : ℤ) → Holds ticks.now tick → IsUnseen self.old tick }
        ensures others { (tick : ℤ) → IsUnseen self.old tick → ¬ Holds ticks.now tick
            → IsUnseen self.new tick }
    {
        let span = span_of(ticks);
        let at = first_ending_after(self.spans.as_slice(), &span);
        if lengthens(&mut self.spans, at, &span) {
            return Ok(());
        }
        self.spans.insert(at, span)?;
        Ok(())
    }
}

/// The ticks of a place at which the train arrives there, and those from which it can go on.
#[derive(Drop)]
pub(crate) struct SeenPlace {
    pub(crate) place: u32,
    pub(crate) arrived: Seen,
    pub(crate) ready: Seen,
}

impl SeenPlace {
    // A place none of whose ticks is there.
    fn new(alloc: Global, place: u32) -> SeenPlace
        ensures place { result.place ≡ place }
        ensures arrived { result.arrived ≡ [] }
        ensures ready { result.ready ≡ [] }
    {
        SeenPlace {
            place,
            arrived: Seen::new(alloc),
            ready: Seen::new(alloc),
        }
    }
}

// Where a place stands among those that are seen; it is added where it is not there. Its hint says
// where to look, and may be wrong, so that one number is all that a place needs until it is seen.
pub(crate) fn place_in(
    alloc: Global,
    seen: &mut Vec<SeenPlace>,
    hints: &mut Vec<u32>,
    place: u32,
) -> Result<usize, NoMemory>
    requires { place < length hints.old.items }
    ensures hints { length hints.new.items ≡ length hints.old.items }
    ensures within { IfOk result (λ at. at < length seen.new.items) }
    ensures place { IfOk result (HoldsAt (λ one. one.place ≡ place) seen.new.items) }
    ensures covered { (labels : list_of label_type) → AreCovered labels seen.old.items
        → AreCovered labels seen.new.items }
{
    let hint = hints[place as usize] as usize;
    if is_there(seen.as_slice(), hint, place) {
        return Ok(hint);
    }
    let number = seen.len();
    seen.push(SeenPlace::new(alloc, place))?;
    hints[place as usize] = hint_of(number);
    Ok(number)
}

// Whether the place stands under that number.
fn is_there(seen: &[SeenPlace], number: usize, place: u32) -> bool
    ensures within { IsTrue result → number < length seen.now }
    ensures place { IsTrue result → HoldsAt (λ one. one.place ≡ place) seen.now number }
{
    let Some(one) = seen.get(number) else {
        return false;
    };
    one.place == place
}

fn hint_of(number: usize) -> u32 {
    u32::try_from(number).unwrap_or(0)
}

// Makes the span before the number as long as to the end of another that begins as it ends.
fn lengthens(spans: &mut Vec<Span>, at: usize, span: &Span) -> bool
    requires { at ≤ length spans.old.items }
    ensures same { result ≡ false → spans.new.items ≡ spans.old.items }
    ensures longer { IsTrue result → IsLonger spans.old.items at span.now spans.new.items }
{
    if at == 0 {
        return false;
    }
    let one = spans[at - 1];
    if one.to != span.from {
        return false;
    }
    spans[at - 1] = Span {
        from: one.from,
        to: span.to,
    };
    true
}

fn span_of(ticks: &Window) -> Span
    requires near { ticks.now.to <ℤ FAR_TICK }
    ensures from { result.from ≡ ticks.now.from }
    ensures to { result.to ≡ ticks.now.to +ℤ pos 1 }
{
    Span {
        from: ticks.from,
        to: ticks.to + 1,
    }
}

// The claim of one tick, which tells what ticks are not there.
fn one_tick() -> Claim
    ensures { result ≡ tick_claim }
{
    Claim {
        zone: 0,
        span: Span { from: 0, to: 1 },
    }
}
