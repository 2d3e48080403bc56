//! The search over labels, each explored once, in the order in which they came.

ghost use Rattle.std.specs.Prelude.{◌≡◌, ◌⊎◌, ℕ, ◌+◌, ◌<◌, ◌≤◌, ℤ, pos, ◌+ℤ◌, ◌-ℤ◌, ◌<ℤ◌, ◌≤ℤ◌};
ghost use Rattle.std.specs.Prelude.{false, true, length, All, Bool as bool_type, IfOk, IfSome};
ghost use Rattle.std.specs.Prelude.{IsTrue, OnOk, Some};
ghost use Rattle.std.specs.Int.{int_max, int_min};
ghost use Rattle.label_search.specs.Free.{Fits};
ghost use Rattle.free_windows.specs.Free.{Holds};
ghost use Rattle.rail_types.specs.Limits.{IsNear};
ghost use Rattle.rail_types.specs.declared.limits.TheConstants.{FAR_TICK};
ghost use Rattle.label_search.specs.Plans.{IsPlan, IsShort, IsTarget};
ghost use Rattle.label_search.specs.declared.plans.Trip.{Trip as trip_type};
ghost use Rattle.label_search.specs.Paths.{place_at as place_of, move_at as move_of, target_of};
ghost use Rattle.label_search.specs.Paths.{leave_of};
ghost use Rattle.label_search.specs.Closed.{IsFreeMove};
ghost use Rattle.label_search.specs.Limits.{IsAhead, IsBelow, IsLimits, last_enter};
ghost use Rattle.label_search.specs.Limits.{ahead_to as next_ahead};
ghost use Rattle.label_search.specs.Labels.{IsIn, IsReached};
ghost use Rattle.label_search.specs.Search.{AreWaitsExplored, IsAdmitted, IsBeaten, IsExplored};
ghost use Rattle.label_search.specs.Search.{IsExploredTo, IsFrontOf, IsFurther, IsMoveExplored};
ghost use Rattle.label_search.specs.Search.{IsOneOf, IsSearch, IsStarted, IsWaited, step_at};

use crate::labels::{Front, Label, Labels, Origin};
use crate::lent::{FirstMove, LentMove, LentPlace, LentPlan};
use crate::lent_limits::LentLimits;
use crate::limits::Ahead;
use crate::plans::{Target, Trip};
use crate::stretches::behind;
use free_windows::next_start_near;
use no_memory::NoMemory;
use occupation_book::Occupations;
use rail_types::Window;
use std::alloc::Global;

/// An end: the place before it, whether the train had to be ready there, the number of the move,
/// and the ticks of arrival, of which a path takes the first.
#[derive(Clone, Copy)]
pub struct Ending {
    pub place: u32,
    pub ready: bool,
    pub number: usize,
    pub arrive: Window,
}

#[derive(Drop)]
pub(crate) struct Search<'a> {
    pub(crate) labels: Labels,
    pub(crate) best: Option<Ending>,
    pub(crate) limits: LentLimits<'a>,
}

// All labels, each explored.
pub(crate) fn explore_all<'a>(
    alloc: Global,
    plan: &LentPlan,
    book: &Occupations,
    trip: &Trip,
    limits: LentLimits<'a>,
) -> Result<Search<'a>, NoMemory>
    requires plan { IsPlan plan.now book.now }
    requires limits { IsLimits limits }
    ensures limits { IfOk result (λ search. search.limits ≡ limits.entry) }
    ensures search { IfOk result (IsSearch plan.now trip.now book.now) }
    ensures started { IfOk result (IsStarted plan.now trip.now) }
    ensures explored { IfOk result (IsExploredTo plan.now trip.now book.now (λ search. length
        search.labels.labels)) }
{
    let mut search = start(alloc, plan, book, trip, limits)?;
    let mut hints = vec![in alloc; 0; book.zones() as usize]?;
    let mut next = 0;
    while next < search.labels.len() {
        let end = search.labels.len();
        explore_from(
            alloc,
            plan,
            book,
            trip,
            &mut search,
            hints.as_mut_slice(),
            next,
        )?;
        next = end;
    }
    Ok(search)
}

// Explores the labels from a number on, where those before are explored.
fn explore_from(
    alloc: Global,
    plan: &LentPlan,
    book: &Occupations,
    trip: &Trip,
    search: &mut Search,
    hints: &mut [usize],
    from: usize,
) -> Result<(), NoMemory>
    requires plan { IsPlan plan.now book.now }
    requires search { IsSearch plan.now trip.now book.now search.old }
    requires explored { IsExploredTo plan.now trip.now book.now (λ one. from) search.old }
    ensures search { IsSearch plan.now trip.now book.now search.new }
    ensures further { IsFurther search.old search.new }
    ensures explored { OnOk result (IsExploredTo plan.now trip.now book.now (λ one. length
        search.old.labels.labels) search.new) }
{
    let fronts = search.labels.fronts(alloc, from)?;
    explore_fronts(plan, book, trip, search, hints, fronts.as_slice())
}

fn explore_fronts(
    plan: &LentPlan,
    book: &Occupations,
    trip: &Trip,
    search: &mut Search,
    hints: &mut [usize],
    fronts: &[Front],
) -> Result<(), NoMemory>
    requires plan { IsPlan plan.now book.now }
    requires fronts { All (IsFrontOf plan.now search.old) fronts.now }
    requires search { IsSearch plan.now trip.now book.now search.old }
    ensures search { IsSearch plan.now trip.now book.now search.new }
    ensures further { IsFurther search.old search.new }
    ensures explored { OnOk result ((place : ℕ) (ready : bool_type) (tick : ℤ)
        → IsIn fronts.now place ready tick → IsExplored plan.now trip.now book.now search.new
        place ready tick) }
{
    for front in fronts {
        explore(plan, book, trip, search, hints, front)?;
    }
    Ok(())
}

// The label of the start.
pub(crate) fn start<'a>(
    alloc: Global,
    plan: &LentPlan,
    book: &Occupations,
    trip: &Trip,
    limits: LentLimits<'a>,
) -> Result<Search<'a>, NoMemory>
    requires plan { IsPlan plan.now book.now }
    requires limits { IsLimits limits }
    ensures limits { IfOk result (λ search. search.limits ≡ limits.entry) }
    ensures search { IfOk result (IsSearch plan.now trip.now book.now) }
    ensures started { IfOk result (IsStarted plan.now trip.now) }
{
    let mut labels = Labels::new(alloc, plan.count())?;
    labels.add(&Label {
        place: 0,
        ready: true,
        ticks: departures(trip, plan),
        origin: Origin::Start,
    })?;
    Ok(Search {
        labels,
        best: None,
        limits,
    })
}

fn departures(trip: &Trip, plan: &LentPlan) -> Window
    ensures from { result.from ≡ int_max trip.now.depart.from (pos 0) }
    ensures to { result.to ≡ int_min trip.now.depart.to plan.now.horizon }
{
    Window {
        from: trip.depart.from.max(0),
        to: trip.depart.to.min(plan.horizon),
    }
}

// Explores ticks of a place: the waits, where the train stands there and
// has not waited, else the moves.
fn explore(
    plan: &LentPlan,
    book: &Occupations,
    trip: &Trip,
    search: &mut Search,
    hints: &mut [usize],
    front: &Front,
) -> Result<(), NoMemory>
    requires plan { IsPlan plan.now book.now }
    requires front { IsFrontOf plan.now search.old front.now }
    requires search { IsSearch plan.now trip.now book.now search.old }
    ensures search { IsSearch plan.now trip.now book.now search.new }
    ensures further { IsFurther search.old search.new }
    ensures explored { OnOk result ((tick : ℤ) → Holds front.now.ticks tick
        → IsExplored plan.now trip.now book.now search.new front.now.place front.now.ready tick) }
{
    let place = place_at(plan, front.place);
    if place.standing && !front.ready {
        return explore_waits(plan, book, trip, search, hints, front);
    }
    explore_moves(plan, book, trip, search, hints, front, &place)
}

// All moves at ticks of a place, in one pass over them.
fn explore_moves(
    plan: &LentPlan,
    book: &Occupations,
    trip: &Trip,
    search: &mut Search,
    hints: &mut [usize],
    front: &Front,
    place: &LentPlace,
) -> Result<(), NoMemory>
    requires plan { IsPlan plan.now book.now }
    requires front { IsFrontOf plan.now search.old front.now }
    requires place { place.now ≡ place_of plan.now front.now.place }
    requires goes { IsTrue (place_of plan.now front.now.place).standing → front.now.ready ≡ true }
    requires search { IsSearch plan.now trip.now book.now search.old }
    ensures search { IsSearch plan.now trip.now book.now search.new }
    ensures further { IsFurther search.old search.new }
    ensures explored { OnOk result ((tick : ℤ) → Holds front.now.ticks tick → (number : ℕ)
        → number < length (place_of plan.now front.now.place).moves
        → IsMoveExplored plan.now trip.now book.now front.now.place tick number search.new) }
{
    let mut left = place.moves.again();
    for number in 0..place.moves.most() {
        let Some(parts) = left.split_first() else {
            return Ok(());
        };
        let FirstMove { step, behind } = parts;
        explore_move(plan, book, trip, search, hints, front, number, &step)?;
        left = behind;
    }
    Ok(())
}

fn explore_move(
    plan: &LentPlan,
    book: &Occupations,
    trip: &Trip,
    search: &mut Search,
    hints: &mut [usize],
    front: &Front,
    number: usize,
    step: &LentMove,
) -> Result<(), NoMemory>
    requires plan { IsPlan plan.now book.now }
    requires front { IsFrontOf plan.now search.old front.now }
    requires number { number < length (place_of plan.now front.now.place).moves }
    requires step { step.now ≡ move_of plan.now front.now.place number }
    requires goes { IsTrue (place_of plan.now front.now.place).standing → front.now.ready ≡ true }
    requires search { IsSearch plan.now trip.now book.now search.old }
    ensures search { IsSearch plan.now trip.now book.now search.new }
    ensures further { IsFurther search.old search.new }
    ensures explored { OnOk result ((tick : ℤ) → Holds front.now.ticks tick
        → IsMoveExplored plan.now trip.now book.now front.now.place tick number search.new) }
{
    let mut rest = enters(front, plan, &search.limits, step);
    while let Some(free) = next_start_near(step.pieces(), book, hints, &rest) {
        reach(plan, book, trip, search, front, number, step, &free)?;
        rest = behind(&rest, &free);
    }
    Ok(())
}

// Whether labels have all that a move leads to that is entered at these ticks.
pub(crate) fn is_known(search: &Search, step: &LentMove, enters: &Window) -> bool
    requires target { IsTarget search.now.labels.places step.now.target }
    requires run { IsShort step.now.run }
    requires low { pos 0 ≤ℤ enters.now.from }
    requires high { (enters.now.to +ℤ step.now.run) ≤ℤ FAR_TICK }
    ensures { IsTrue result → (trip : trip_type) (enter : ℤ) → Holds enters.now enter
        → IsAdmitted trip search.now step.now.target (enter +ℤ step.now.run) }
{
    if enters.from > enters.to {
        return true;
    }
    match step.target() {
        Target::Place(place) => search.labels.have_come(place, &later(enters, step)),
        Target::End => false,
    }
}

// What a move leads to that is entered at any of these ticks of a label.
pub(crate) fn reach(
    plan: &LentPlan,
    book: &Occupations,
    trip: &Trip,
    search: &mut Search,
    front: &Front,
    number: usize,
    step: &LentMove,
    free: &Window,
) -> Result<(), NoMemory>
    requires plan { IsPlan plan.now book.now }
    requires front { IsFrontOf plan.now search.old front.now }
    requires number { number < length (place_of plan.now front.now.place).moves }
    requires step { step.now ≡ move_of plan.now front.now.place number }
    requires goes { IsTrue (place_of plan.now front.now.place).standing → front.now.ready ≡ true }
    requires some { free.now.from ≤ℤ free.now.to }
    requires held { (enter : ℤ) → Holds free.now enter → Holds front.now.ticks enter }
    requires free { (enter : ℤ) → Holds free.now enter
        → IsFreeMove plan.now book.now front.now.place (step_at number enter) }
    requires below { (enter : ℤ) → Holds free.now enter
        → IsBelow search.old.limits (move_of plan.now front.now.place number).target (leave_of
        plan.now front.now.place (step_at number enter)) }
    requires search { IsSearch plan.now trip.now book.now search.old }
    ensures search { IsSearch plan.now trip.now book.now search.new }
    ensures further { IsFurther search.old search.new }
    ensures admitted { OnOk result ((enter : ℤ) → Holds free.now enter
        → IsAdmitted trip.now search.new (move_of plan.now front.now.place number).target
        (leave_of plan.now front.now.place (step_at number enter))) }
{
    let leaves = later(free, step);
    match step.target() {
        Target::Place(place) => {
            let origin = Origin::Move {
                from: front.place,
                ready: front.ready,
                number,
            };
            search.labels.add(&Label {
                place,
                ready: false,
                ticks: leaves,
                origin,
            })
        }
        Target::End => {
            search.best = better(
                trip,
                search.best,
                &Ending {
                    place: front.place,
                    ready: front.ready,
                    number,
                    arrive: leaves,
                },
            );
            Ok(())
        }
    }
}

// The earlier of the best end so far and the first of an ending's ticks in the window of arrival.
fn better(trip: &Trip, best: Option<Ending>, ending: &Ending) -> Option<Ending>
    requires some { ending.now.arrive.from ≤ℤ ending.now.arrive.to }
    ensures beaten { (leave : ℤ) → Holds ending.now.arrive leave → Holds trip.now.arrive leave
        → IsBeaten result leave }
    ensures kept { (leave : ℤ) → IsBeaten best leave → IsBeaten result leave }
    ensures one { (result ≡ best) ⊎ IsOneOf trip.now ending.now result }
{
    let arrive = shared(&ending.arrive, &trip.arrive);
    if arrive.from > arrive.to {
        return best;
    }
    earlier(
        best,
        &Ending {
            place: ending.place,
            ready: ending.ready,
            number: ending.number,
            arrive,
        },
    )
}

// The earlier of the best end so far and another.
fn earlier(best: Option<Ending>, one: &Ending) -> Option<Ending>
    ensures beaten { (leave : ℤ) → one.now.arrive.from ≤ℤ leave → IsBeaten result leave }
    ensures kept { (leave : ℤ) → IsBeaten best leave → IsBeaten result leave }
    ensures one { (result ≡ best) ⊎ (result ≡ Some one.now) }
{
    match best {
        Some(other) if other.arrive.from <= one.arrive.from => best,
        _ => Some(*one),
    }
}

// The ticks of both windows.
fn shared(one: &Window, other: &Window) -> Window
    ensures from { result.from ≡ int_max one.now.from other.now.from }
    ensures to { result.to ≡ int_min one.now.to other.now.to }
{
    Window {
        from: one.from.max(other.from),
        to: one.to.min(other.to),
    }
}

fn explore_waits(
    plan: &LentPlan,
    book: &Occupations,
    trip: &Trip,
    search: &mut Search,
    hints: &mut [usize],
    front: &Front,
) -> Result<(), NoMemory>
    requires plan { IsPlan plan.now book.now }
    requires front { IsFrontOf plan.now search.old front.now }
    requires standing { IsTrue (place_of plan.now front.now.place).standing }
    requires arrived { front.now.ready ≡ false }
    requires search { IsSearch plan.now trip.now book.now search.old }
    ensures search { IsSearch plan.now trip.now book.now search.new }
    ensures further { IsFurther search.old search.new }
    ensures explored { OnOk result ((tick : ℤ) → Holds front.now.ticks tick
        → AreWaitsExplored plan.now book.now front.now.place tick search.new) }
{
    let place = place_at(plan, front.place);
    go_on_at_once(plan, book, trip, search, front)?;
    let mut rest = until_the_horizon(&front.ticks, plan);
    while let Some(free) = next_start_near(place.waits(), book, hints, &rest) {
        if free.from > front.ticks.to {
            return Ok(());
        }
        wait(
            plan,
            book,
            trip,
            search,
            front,
            &ready_ticks(&free, &place, plan),
        )?;
        rest = behind(&rest, &free);
    }
    Ok(())
}

// Where there is no dwell the train can go on when it comes.
pub(crate) fn go_on_at_once(
    plan: &LentPlan,
    book: &Occupations,
    trip: &Trip,
    search: &mut Search,
    front: &Front,
) -> Result<(), NoMemory>
    requires plan { IsPlan plan.now book.now }
    requires front { IsFrontOf plan.now search.old front.now }
    requires standing { IsTrue (place_of plan.now front.now.place).standing }
    requires arrived { front.now.ready ≡ false }
    requires search { IsSearch plan.now trip.now book.now search.old }
    ensures search { IsSearch plan.now trip.now book.now search.new }
    ensures further { IsFurther search.old search.new }
    ensures reached { OnOk result ((place_of plan.now front.now.place).dwell ≡ pos 0
        → (tick : ℤ) → Holds front.now.ticks tick → IsReached search.new.labels.labels
        front.now.place true tick) }
{
    if place_at(plan, front.place).dwell != 0 {
        return Ok(());
    }
    wait(plan, book, trip, search, front, &front.ticks)
}

// A label for the ticks at which the train can go on, after it came at those of another.
pub(crate) fn wait(
    plan: &LentPlan,
    book: &Occupations,
    trip: &Trip,
    search: &mut Search,
    front: &Front,
    ticks: &Window,
) -> Result<(), NoMemory>
    requires plan { IsPlan plan.now book.now }
    requires front { IsFrontOf plan.now search.old front.now }
    requires ticks { (pos 0 ≤ℤ ticks.now.from) × (ticks.now.to ≤ℤ plan.now.horizon) }
    requires waited { (tick : ℤ) → Holds ticks.now tick
        → IsWaited plan.now book.now search.old.labels.labels front.now.ticks front.now.place tick }
    requires search { IsSearch plan.now trip.now book.now search.old }
    ensures search { IsSearch plan.now trip.now book.now search.new }
    ensures further { IsFurther search.old search.new }
    ensures reached { OnOk result ((tick : ℤ) → Holds ticks.now tick
        → IsReached search.new.labels.labels front.now.place true tick) }
{
    let origin = Origin::Wait {
        arrivals: front.ticks,
    };
    search.labels.add(&Label {
        place: front.place,
        ready: true,
        ticks: *ticks,
        origin,
    })
}

pub(crate) fn place_at<'a>(plan: &LentPlan<'a>, place: u32) -> LentPlace<'a>
    requires { place < length plan.now.places }
    ensures { result ≡ place_of plan.now place }
{
    plan.place(place as usize)
}

pub(crate) fn move_at<'a>(plan: &LentPlan<'a>, place: u32, number: usize) -> LentMove<'a>
    requires place { place < length plan.now.places }
    requires number { number < length (place_of plan.now place).moves }
    ensures { result ≡ move_of plan.now place number }
{
    place_at(plan, place).moves.get(number)
}

// The ticks of a label at which a move can be entered, leave by the
// horizon and end below the limit.
fn enters(front: &Front, plan: &LentPlan, limits: &LentLimits, step: &LentMove) -> Window
    requires horizon { IsShort plan.now.horizon }
    requires run { IsShort step.now.run }
    requires limits { IsLimits limits.now }
    ensures from { result.from ≡ front.now.ticks.from }
    ensures to { result.to ≡ int_min (int_min front.now.ticks.to (plan.now.horizon -ℤ
        step.now.run)) (last_enter limits.now step.now) }
{
    let ahead = limits.ahead_to(step);
    enters_by(front, plan, limits, step, &ahead)
}

// The same by what is ahead of where the move leads.
pub(crate) fn enters_by(
    front: &Front,
    plan: &LentPlan,
    limits: &LentLimits,
    step: &LentMove,
    ahead: &Ahead,
) -> Window
    requires horizon { IsShort plan.now.horizon }
    requires run { IsShort step.now.run }
    requires below { IsNear limits.now.below }
    requires ahead { IsAhead ahead.now }
    requires value { ahead.now ≡ next_ahead limits.now.ahead step.now.target }
    ensures from { result.from ≡ front.now.ticks.from }
    ensures to { result.to ≡ int_min (int_min front.now.ticks.to (plan.now.horizon -ℤ
        step.now.run)) (last_enter limits.now step.now) }
{
    let within = enters_within(front, plan, step);
    until_the_limit(&within, limits, step, ahead)
}

fn enters_within(front: &Front, plan: &LentPlan, step: &LentMove) -> Window
    requires horizon { IsShort plan.now.horizon }
    requires run { IsShort step.now.run }
    ensures from { result.from ≡ front.now.ticks.from }
    ensures to { result.to ≡ int_min front.now.ticks.to (plan.now.horizon -ℤ step.now.run) }
{
    Window {
        from: front.ticks.from,
        to: front.ticks.to.min(plan.horizon - step.run),
    }
}

fn until_the_limit(within: &Window, limits: &LentLimits, step: &LentMove, ahead: &Ahead) -> Window
    requires run { IsShort step.now.run }
    requires below { IsNear limits.now.below }
    requires ahead { IsAhead ahead.now }
    ensures from { result.from ≡ within.now.from }
    ensures to { result.to ≡ int_min within.now.to (((limits.now.below -ℤ pos 1) -ℤ step.now.run)
        -ℤ ahead.now.ticks) }
{
    Window {
        from: within.from,
        to: within.to.min(limits.below - 1 - step.run - ahead.ticks),
    }
}

fn later(free: &Window, step: &LentMove) -> Window
    requires near { IsNear free.now.from × IsNear free.now.to }
    requires run { IsShort step.now.run }
    ensures from { result.from ≡ free.now.from +ℤ step.now.run }
    ensures to { result.to ≡ free.now.to +ℤ step.now.run }
{
    Window {
        from: free.from + step.run,
        to: free.to + step.run,
    }
}

pub(crate) fn until_the_horizon(ticks: &Window, plan: &LentPlan) -> Window
    ensures from { result.from ≡ ticks.now.from }
    ensures to { result.to ≡ plan.now.horizon }
{
    Window {
        from: ticks.from,
        to: plan.horizon,
    }
}

// The ticks at which the train can go on that stands at free ticks: it may
// leave as the last of them ends.
pub(crate) fn ready_ticks(free: &Window, place: &LentPlace, plan: &LentPlan) -> Window
    requires near { IsNear free.now.from × IsNear free.now.to }
    requires dwell { IsShort place.now.dwell }
    ensures from { result.from ≡ free.now.from +ℤ place.now.dwell }
    ensures to { result.to ≡ int_min (free.now.to +ℤ pos 1) plan.now.horizon }
{
    Window {
        from: free.from + place.dwell,
        to: (free.to + 1).min(plan.horizon),
    }
}
