//! Labels: places with windows of ticks that the train can have there, and where these came from.

ghost use Rattle.rail_types.specs.declared.limits.TheConstants.{FAR_TICK};
ghost use Rattle.std.specs.Prelude.{◌≡◌, ℕ, ◌<◌, ◌≤◌, ℤ, ◌+ℤ◌, ◌<ℤ◌, ◌≤ℤ◌, [], ◌∷◌, ◌++◌, ◌↔◌};
ghost use Rattle.std.specs.Prelude.{false, length, take, All, Bool as bool_type, IfOk, IsTrue};
ghost use Rattle.std.specs.Prelude.{OnOk, pos};
ghost use Rattle.free_windows.specs.Free.{Holds};
ghost use Rattle.free_windows.specs.Starts.{IsNearWindow};
ghost use Rattle.rail_types.specs.Limits.{IsNear};
ghost use Rattle.label_search.specs.Spans.{IsNearBelow};
ghost use Rattle.label_search.specs.Labels.{AreFronts, AreJoined, GoesOn, HasAllFrom, IsCovered};
ghost use Rattle.label_search.specs.Labels.{IsCoveredAt, IsGrown, IsIn, IsPartOf, IsSourceOf};
ghost use Rattle.label_search.specs.Labels.{IsReached};
ghost use Rattle.label_search.specs.Labels.{IsUnseen, as_front, as_member, label_at, members_of};
ghost use Rattle.std.specs.Prelude.{List as list_of};
ghost use Rattle.label_search.specs.declared.labels.Front.{Front as front_type};
ghost use Rattle.label_search.specs.Closed.{IsHeld};
ghost use Rattle.std.specs.Int.{int_max};

use crate::plans::Member;
use crate::seen::{Seen, SeenPlace, place_in};
use crate::stretches::behind;
use no_memory::NoMemory;
use rail_types::{Tick, Window};
use std::alloc::Global;
use std::marker::Model;

// How many labels, and how many places that they reach, room is made for at once: room that is
// not used is never touched and takes no memory, where a list that grows is copied.
const FIRST_LABELS: usize = 32_768;

const FIRST_PLACES: usize = 8_192;

/// Where the ticks of a label came from.
#[derive(Clone, Copy, Debug)]
pub enum Origin {
    /// The window of departure.
    Start,
    /// Waits at the place, after arrivals the last of which ends a window.
    Wait {
        arrivals: Window,
    },
    /// A move from a place, where the train was `ready` or not.
    Move {
        from: u32,
        ready: bool,
        number: usize,
    },
}

/// Ticks at which the train arrives at a place or, where it is `ready`, can go on from there.
#[derive(Clone, Copy, Debug)]
pub struct Label {
    pub place: u32,
    pub ready: bool,
    pub ticks: Window,
    pub origin: Origin,
}

// The number of a label, and where its ticks came from.
#[derive(Clone, Copy)]
pub(crate) struct Source {
    pub(crate) number: usize,
    pub(crate) origin: Origin,
}

/// The same without its origin.
#[derive(Clone, Copy, PartialEq, Eq, PartialOrd, Ord)]
pub struct Front {
    pub place: u32,
    pub ready: bool,
    pub ticks: Window,
}

/// A tick of a place.
#[derive(Clone, Copy)]
pub(crate) struct Moment {
    pub(crate) place: u32,
    pub(crate) ready: bool,
    pub(crate) tick: Tick,
}

/// Labels, and of each place that they reach the ticks that they have.
#[derive(Drop)]
pub(crate) struct Labels {
    alloc: Global,
    labels: Vec<Label>,
    seen: Vec<SeenPlace>,
    // For each place where it may stand among those that are seen.
    hints: Vec<u32>,
}

impl Model for Labels {
    ghost use Rattle.std.specs.Prelude.{length};
    ghost use Rattle.label_search.specs.Known.{Known};
    ghost use Rattle.label_search.specs.Labels.{AreCovered};

    ghost Value = { Known };

    ghost view = { λ a. record { labels = a.labels.items; places = length a.hints.items } };

    ghost invariant = { λ a. AreCovered a.labels.items a.seen.items };
}

impl Labels {
    // No labels, of so many places.
    pub(crate) fn new(alloc: Global, places: usize) -> Result<Labels, NoMemory>
        ensures labels { IfOk result (λ known. known.labels ≡ []) }
        ensures places { IfOk result (λ known. known.places ≡ places) }
    {
        let hints = vec![in alloc; 0u32; places]?;
        Ok(Labels {
            alloc,
            labels: empty_with_room(alloc, FIRST_LABELS),
            seen: empty_with_room(alloc, FIRST_PLACES),
            hints,
        })
    }

    pub(crate) fn len(&self) -> usize
        ensures { result ≡ length self.now.labels }
    {
        self.labels.len()
    }

    // The place and the ticks of a label.
    pub(crate) fn front(&self, number: usize) -> Front
        requires { number < length self.now.labels }
        ensures { result ≡ as_front (label_at self.now.labels number) }
    {
        front_of(&self.labels[number])
    }

    // The last label before a number that has a tick.
    pub(crate) fn source_of(&self, moment: &Moment, until: usize) -> Source
        requires until { until ≤ length self.now.labels }
        requires reached { IsReached (take until self.now.labels) moment.now.place
            moment.now.ready moment.now.tick }
        ensures { IsSourceOf self.now.labels until moment.now.place moment.now.ready
            moment.now.tick result }
    {
        source_among(self.labels.as_slice(), moment, until)
    }

    // The windows of ticks of the labels from a number on, each as long as can be.
    pub(crate) fn fronts(&self, alloc: Global, from: usize) -> Result<Vec<Front>, NoMemory>
        requires some { All (λ label. label.ticks.from ≤ℤ label.ticks.to) self.now.labels }
        ensures some { IfOk result (λ fronts. All (λ front. front.ticks.from ≤ℤ front.ticks.to)
            fronts.items) }
        ensures sound { IfOk result (λ fronts. (place : ℕ) (ready : bool_type) (tick : ℤ)
            → IsIn fronts.items place ready tick → IsReached self.now.labels place ready tick) }
        ensures complete { IfOk result (λ fronts. HasAllFrom from self.now.labels fronts.items) }
    {
        let mut parts = fronts_from(alloc, self.labels.as_slice(), from)?;
        parts.sort_unstable();
        merged(alloc, parts.as_slice())
    }

    // The places and ticks of arrival.
    pub(crate) fn members(&self, alloc: Global) -> Result<Vec<Member>, NoMemory>
        requires some { All (λ label. label.ticks.from ≤ℤ label.ticks.to) self.now.labels }
        ensures held { IfOk result (λ members. (place : ℕ) (tick : ℤ)
            → IsReached self.now.labels place false tick → IsHeld members.items place tick) }
        ensures reached { IfOk result (λ members. (place : ℕ) (tick : ℤ)
            → IsHeld members.items place tick → IsReached self.now.labels place false tick) }
        ensures some { IfOk result (λ members. All
            (λ member. member.window.from ≤ℤ member.window.to) members.items) }
    {
        let fronts = self.fronts(alloc, 0)?;
        let members = members_among(alloc, fronts.as_slice())?;
        Ok(members)
    }

    // Whether labels have these ticks of arrival at a place; that they do not may be said where
    // more than one has them.
    pub(crate) fn have_come(&self, place: u32, ticks: &Window) -> bool
        requires place { place < self.now.places }
        requires near { IsNearWindow ticks.now }
        requires some { ticks.now.from ≤ℤ ticks.now.to }
        ensures { IsTrue result → (tick : ℤ) → Holds ticks.now tick
            → IsReached self.now.labels place false tick }
    {
        let hint = self.hints[place as usize] as usize;
        let Some(one) = self.seen.get(hint) else {
            return false;
        };
        if one.place != place {
            return false;
        }
        one.arrived.has(ticks)
    }

    // Labels for those ticks that no label has.
    #[inline(always)]
    pub(crate) fn add(&mut self, wanted: &Label) -> Result<(), NoMemory>
        requires place { wanted.now.place < self.old.places }
        requires near { IsNearBelow wanted.now.ticks }
        ensures places { self.new.places ≡ self.old.places }
        ensures grown { IsGrown (IsPartOf wanted.now) self.old.labels self.new.labels }
        ensures reached { OnOk result ((tick : ℤ) → Holds wanted.now.ticks tick
            → IsReached self.new.labels wanted.now.place wanted.now.ready tick) }
    {
        let at = place_in(self.alloc, &mut self.seen, &mut self.hints, wanted.place)?;
        let seen = &mut self.seen[at];
        extend_at(&mut self.labels, seen, wanted)
    }
}

// An empty list, with room for so many items where there is memory for it.
fn empty_with_room<T>(alloc: Global, items: usize) -> Vec<T>
    ensures { result.items ≡ [] }
{
    match Vec::with_capacity(alloc, items) {
        Ok(list) => list,
        Err(_) => Vec::new(alloc),
    }
}

fn source_among(labels: &[Label], moment: &Moment, until: usize) -> Source
    requires until { until ≤ length labels.now }
    requires reached { IsReached (take until labels.now) moment.now.place moment.now.ready
        moment.now.tick }
    ensures { IsSourceOf labels.now until moment.now.place moment.now.ready moment.now.tick result }
{
    let mut number = until;
    while number > 0 {
        number -= 1;
        let label = &labels[number];
        if has(label, moment) {
            return Source {
                number,
                origin: label.origin,
            };
        }
    }
    unreachable!()
}

fn fronts_from(alloc: Global, labels: &[Label], from: usize) -> Result<Vec<Front>, NoMemory>
    requires some { All (λ label. label.ticks.from ≤ℤ label.ticks.to) labels.now }
    ensures { IfOk result (λ fronts. AreFronts labels.now from (length labels.now) fronts.items) }
{
    let mut fronts = Vec::new(alloc);
    for number in from..labels.len() {
        fronts.push(front_of(&labels[number]))?;
    }
    Ok(fronts)
}

fn has(label: &Label, moment: &Moment) -> bool
    ensures { IsTrue result ↔ ((label.now.place ≡ moment.now.place)
        × (label.now.ready ≡ moment.now.ready) × Holds label.now.ticks moment.now.tick) }
{
    label.place == moment.place
        && label.ready == moment.ready
        && label.ticks.from <= moment.tick
        && moment.tick <= label.ticks.to
}

fn front_of(label: &Label) -> Front
    ensures { result ≡ as_front label.now }
{
    Front {
        place: label.place,
        ready: label.ready,
        // By its fields: a copy of the whole reads together what was written apart just before.
        ticks: Window {
            from: label.ticks.from,
            to: label.ticks.to,
        },
    }
}

// The same ticks, where windows that follow in the list and touch or overlap are one.
fn merged(alloc: Global, parts: &[Front]) -> Result<Vec<Front>, NoMemory>
    requires some { All (λ part. part.ticks.from ≤ℤ part.ticks.to) parts.now }
    ensures some { IfOk result (λ fronts. All (λ front. front.ticks.from ≤ℤ front.ticks.to)
        fronts.items) }
    ensures sound { IfOk result (λ fronts. (place : ℕ) (ready : bool_type) (tick : ℤ)
        → IsIn fronts.items place ready tick → IsIn parts.now place ready tick) }
    ensures complete { IfOk result (λ fronts. (place : ℕ) (ready : bool_type) (tick : ℤ)
        → IsIn parts.now place ready tick → IsIn fronts.items place ready tick) }
{
    let mut fronts = Vec::new(alloc);
    let Some(first) = parts.first() else {
        return Ok(fronts);
    };
    let mut current = *first;
    for number in 1..parts.len() {
        join(&mut fronts, &mut current, &parts[number])?;
    }
    fronts.push(current)?;
    Ok(fronts)
}

// Joins one part to the window before it, or begins with it anew.
fn join(fronts: &mut Vec<Front>, current: &mut Front, part: &Front) -> Result<(), NoMemory>
    requires some { part.now.ticks.from ≤ℤ part.now.ticks.to }
    ensures { OnOk result ((parts : list_of front_type)
        → AreJoined parts fronts.old.items current.old
        → AreJoined (parts ++ part.now ∷ []) fronts.new.items current.new) }
{
    if goes_on(current, part) {
        *current = joined(current, part);
        return Ok(());
    }
    fronts.push(*current)?;
    *current = *part;
    Ok(())
}

// Whether a window begins in another of the same place, or behind its last tick.
fn goes_on(current: &Front, part: &Front) -> bool
    ensures { IsTrue result → GoesOn current.now part.now }
{
    current.place == part.place
        && current.ready == part.ready
        && begins_by_the_end(&current.ticks, &part.ticks)
}

// Whether a window begins in another, or behind its last tick.
fn begins_by_the_end(current: &Window, part: &Window) -> bool
    ensures { IsTrue result → (current.now.from ≤ℤ part.now.from)
        × (part.now.from ≤ℤ (current.now.to +ℤ pos 1)) }
{
    current.from <= part.from && (part.from <= current.to || part.from - 1 == current.to)
}

fn joined(current: &Front, part: &Front) -> Front
    ensures place { result.place ≡ current.now.place }
    ensures ready { result.ready ≡ current.now.ready }
    ensures from { result.ticks.from ≡ current.now.ticks.from }
    ensures to { result.ticks.to ≡ int_max current.now.ticks.to part.now.ticks.to }
{
    Front {
        place: current.place,
        ready: current.ready,
        ticks: Window {
            from: current.ticks.from,
            to: current.ticks.to.max(part.ticks.to),
        },
    }
}

// The arrivals among windows.
fn members_among(alloc: Global, fronts: &[Front]) -> Result<Vec<Member>, NoMemory>
    ensures { IfOk result (λ members. members.items ≡ members_of fronts.now) }
{
    let arrivals = fronts.iter().filter(|front| !front.ready);
    Ok(arrivals.map(member_of).collect(alloc)?)
}

fn member_of(front: &Front) -> Member
    ensures { result ≡ as_member front.now }
{
    Member {
        place: front.place,
        window: front.ticks,
    }
}

// Labels for those ticks of a place that no label has.
fn extend_at(labels: &mut Vec<Label>, seen: &mut SeenPlace, wanted: &Label) -> Result<(), NoMemory>
    requires near { IsNearBelow wanted.now.ticks }
    requires place { seen.old.place ≡ wanted.now.place }
    requires covered { IsCoveredAt labels.old.items seen.old }
    ensures covered { IsCoveredAt labels.new.items seen.new }
    ensures grown { IsGrown (IsPartOf wanted.now) labels.old.items labels.new.items }
    ensures reached { OnOk result ((tick : ℤ) → Holds wanted.now.ticks tick
        → IsReached labels.new.items wanted.now.place wanted.now.ready tick) }
{
    if wanted.ready {
        extend(labels, &mut seen.ready, wanted)
    } else {
        extend(labels, &mut seen.arrived, wanted)
    }
}

fn extend(labels: &mut Vec<Label>, seen: &mut Seen, wanted: &Label) -> Result<(), NoMemory>
    requires near { IsNearBelow wanted.now.ticks }
    requires covered { IsCovered labels.old.items wanted.now.place wanted.now.ready seen.old }
    ensures covered { IsCovered labels.new.items wanted.now.place wanted.now.ready seen.new }
    ensures grown { IsGrown (IsPartOf wanted.now) labels.old.items labels.new.items }
    ensures reached { OnOk result ((tick : ℤ) → Holds wanted.now.ticks tick
        → IsReached labels.new.items wanted.now.place wanted.now.ready tick) }
{
    let mut rest = wanted.ticks;
    while rest.from <= rest.to {
        let stretch = seen.stretch(&rest);
        keep(labels, seen, wanted, &stretch.ticks, stretch.free)?;
        rest = behind(&rest, &stretch.ticks);
    }
    Ok(())
}

// Keeps a label for part of the wanted ticks where no label has them; else one has them already.
fn keep(
    labels: &mut Vec<Label>,
    seen: &mut Seen,
    wanted: &Label,
    ticks: &Window,
    is_new: bool,
) -> Result<(), NoMemory>
    requires near { IsNear ticks.now.from × (ticks.now.to <ℤ FAR_TICK) }
    requires some { ticks.now.from ≤ℤ ticks.now.to }
    requires part { (tick : ℤ) → Holds ticks.now tick → Holds wanted.now.ticks tick }
    requires unseen { IsTrue is_new → (tick : ℤ) → Holds ticks.now tick → IsUnseen seen.old tick }
    requires seen { is_new ≡ false → (tick : ℤ) → Holds ticks.now tick → ¬ IsUnseen seen.old tick }
    requires covered { IsCovered labels.old.items wanted.now.place wanted.now.ready seen.old }
    ensures covered { IsCovered labels.new.items wanted.now.place wanted.now.ready seen.new }
    ensures grown { IsGrown (IsPartOf wanted.now) labels.old.items labels.new.items }
    ensures reached { OnOk result ((tick : ℤ) → Holds ticks.now tick
        → IsReached labels.new.items wanted.now.place wanted.now.ready tick) }
{
    if !is_new {
        return Ok(());
    }
    labels.push(Label {
        place: wanted.place,
        ready: wanted.ready,
        ticks: *ticks,
        origin: wanted.origin,
    })?;
    seen.insert(ticks)
}
