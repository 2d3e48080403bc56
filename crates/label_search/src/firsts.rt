//! The search in the order of least arrival: what a label leads to is looked at when it is due, and
//! of a move its first free ticks alone. So the first end that is met is the earliest, and nothing
//! that could arrive later is looked at.

ghost use Rattle.std.specs.Prelude.{◌≡◌, ◌⊎◌, ℕ, ◌<◌, ◌≤◌, ℤ, pos, ◌+ℤ◌, ◌-ℤ◌, ◌<ℤ◌, ◌≤ℤ◌, false};
ghost use Rattle.std.specs.Prelude.{true, length, All, IfOk, IsTrue, List as list_of, OnOk};
ghost use Rattle.std.specs.Int.{int_max};
ghost use Rattle.free_windows.specs.Free.{Holds};
ghost use Rattle.rail_types.specs.Limits.{IsNear};
ghost use Rattle.label_search.specs.Plans.{IsPlan, IsShort};
ghost use Rattle.label_search.specs.Paths.{move_at as move_of, place_at as place_of};
ghost use Rattle.label_search.specs.Limits.{IsAhead, IsConsistent, IsLimits};
ghost use Rattle.label_search.specs.Limits.{ahead_at as place_ahead};
ghost use Rattle.label_search.specs.Labels.{as_front, label_at};
ghost use Rattle.label_search.specs.Search.{IsFrontOf, IsSearch, IsStarted};
ghost use Rattle.label_search.specs.Queues.{Waits};
ghost use Rattle.label_search.specs.Pending.{AreInHand, AreLongWaitsInHand, AreToBeLeft};
ghost use Rattle.label_search.specs.Pending.{AreWaitsInHand, IsAdvanced, IsDone, IsMoveInHand};
ghost use Rattle.label_search.specs.Pending.{IsSettled, IsToBeLeft, stop_at};
ghost use Rattle.label_search.specs.Outlooks.{IsOutlook};
ghost use Rattle.label_search.specs.declared.limits.Ahead.{Ahead as ahead_type};
ghost use Rattle.label_search.specs.Pending.{waited as waited_there};
ghost use Rattle.label_search.specs.declared.queues.Due.{Due as due_type};

use crate::labels::Front;
use crate::lent::{FirstMove, LentMove, LentPlace, LentPlan};
use crate::lent_limits::LentLimits;
use crate::limits::Ahead;
use crate::plans::{Target, Trip};
use crate::queues::{Due, Queue, Task, Work};
use crate::searches::{
    Search, enters_by, go_on_at_once, is_known, place_at, reach, ready_ticks, start,
    until_the_horizon, wait,
};
use free_windows::next_start_near;
use no_memory::NoMemory;
use occupation_book::Occupations;
use rail_types::{Tick, Window};
use std::alloc::Global;

// A move from the place of a label, by its number there.
#[derive(Clone, Copy)]
struct Onward {
    label: usize,
    number: usize,
}

// The same with the move that stands there.
#[derive(Drop)]
struct OnwardMove<'a> {
    onward: Onward,
    step: LentMove<'a>,
}

// What is ahead of a target, handed on so that it is not looked up twice.
#[derive(Clone, Copy)]
struct Outlook {
    target: Target,
    ahead: Ahead,
}

// What the search has when no work is due before its best end.
pub(crate) fn explore_first<'a>(
    alloc: Global,
    plan: &LentPlan,
    book: &Occupations,
    trip: &Trip,
    limits: LentLimits<'a>,
) -> Result<Search<'a>, NoMemory>
    requires plan { IsPlan plan.now book.now }
    requires limits { IsLimits limits }
    requires consistent { IsConsistent plan.now limits.ahead }
    ensures limits { IfOk result (λ search. search.limits ≡ limits.entry) }
    ensures search { IfOk result (IsSearch plan.now trip.now book.now) }
    ensures started { IfOk result (IsStarted plan.now trip.now) }
    ensures settled { IfOk result (IsSettled plan.now trip.now book.now) }
{
    let mut search = start(alloc, plan, book, trip, limits)?;
    explore_due(alloc, plan, book, trip, &mut search)?;
    Ok(search)
}

// Leaves the labels of the start, and does what is due before the best end.
fn explore_due(
    alloc: Global,
    plan: &LentPlan,
    book: &Occupations,
    trip: &Trip,
    search: &mut Search,
) -> Result<(), NoMemory>
    requires plan { IsPlan plan.now book.now }
    requires search { IsSearch plan.now trip.now book.now search.old }
    requires started { IsStarted plan.now trip.now search.old }
    requires consistent { IsConsistent plan.now search.old.limits.ahead }
    ensures limits { OnOk result (search.new.limits ≡ search.old.limits) }
    ensures search { OnOk result (IsSearch plan.now trip.now book.now search.new) }
    ensures started { OnOk result (IsStarted plan.now trip.now search.new) }
    ensures settled { OnOk result (IsSettled plan.now trip.now book.now search.new) }
{
    let mut queue = Queue::new(alloc);
    let mut hints = vec![in alloc; 0; book.zones() as usize]?;
    leave_later(plan, book, trip, search, &mut queue, 0, &at_the_end())?;
    take_up_all(plan, book, trip, search, &mut queue, hints.as_mut_slice())
}

// Does what is due before the best end.
fn take_up_all(
    plan: &LentPlan,
    book: &Occupations,
    trip: &Trip,
    search: &mut Search,
    queue: &mut Queue,
    hints: &mut [usize],
) -> Result<(), NoMemory>
    requires plan { IsPlan plan.now book.now }
    requires search { IsSearch plan.now trip.now book.now search.old }
    requires started { IsStarted plan.now trip.now search.old }
    requires consistent { IsConsistent plan.now search.old.limits.ahead }
    requires in_hand { AreInHand plan.now trip.now book.now search.old queue.old }
    ensures limits { OnOk result (search.new.limits ≡ search.old.limits) }
    ensures search { OnOk result (IsSearch plan.now trip.now book.now search.new) }
    ensures started { OnOk result (IsStarted plan.now trip.now search.new) }
    ensures settled { OnOk result (IsSettled plan.now trip.now book.now search.new) }
{
    for _ in 0..u64::MAX {
        let stop = stop_of(search);
        let Some(due) = queue.pop_before(&stop.ticks) else {
            return Ok(());
        };
        take_up(plan, book, trip, search, queue, hints, &due.task)?;
    }
    // More work than can be counted.
    Err(NoMemory)
}

// The tick of the best end, or the limit.
fn stop_of(search: &Search) -> Ahead
    ensures { result.ticks ≡ stop_at search.now.limits.below search.now.best }
{
    match search.best {
        Some(ending) => Ahead {
            ticks: ending.arrive.from,
        },
        None => search.limits.below(),
    }
}

// Does work of a label.
fn take_up(
    plan: &LentPlan,
    book: &Occupations,
    trip: &Trip,
    search: &mut Search,
    queue: &mut Queue,
    hints: &mut [usize],
    task: &Task,
) -> Result<(), NoMemory>
    requires plan { IsPlan plan.now book.now }
    requires search { IsSearch plan.now trip.now book.now search.old }
    ensures search { IsSearch plan.now trip.now book.now search.new }
    ensures advanced { OnOk result (IsAdvanced plan.now search.old search.new queue.old queue.new) }
    ensures done { OnOk result (task.now.label < length search.old.labels.labels
        → IsDone plan.now trip.now book.now search.new queue.new task.now.label
        (as_front (label_at search.old.labels.labels task.now.label)) task.now.work) }
{
    if task.label >= search.labels.len() {
        return Ok(());
    }
    let front = search.labels.front(task.label);
    match &task.work {
        Work::Leave => leave(plan, book, trip, search, queue, hints, &front, task.label),
        Work::Wait { from } => {
            let part = part_from(&front, from);
            wait_on(plan, book, trip, search, queue, hints, &part, task.label)
        }
        Work::Move { number, from } => {
            let part = part_from(&front, from);
            let onward = Onward {
                label: task.label,
                number: *number,
            };
            move_on(plan, book, trip, search, queue, hints, &part, onward)
        }
    }
}

// The ticks of a label from one on.
fn part_from(front: &Front, from: &Tick) -> Front
    ensures place { result.place ≡ front.now.place }
    ensures ready { result.ready ≡ front.now.ready }
    ensures from { result.ticks.from ≡ int_max front.now.ticks.from from.now }
    ensures to { result.ticks.to ≡ front.now.ticks.to }
{
    Front {
        place: front.place,
        ready: front.ready,
        ticks: Window {
            from: front.ticks.from.max(*from),
            to: front.ticks.to,
        },
    }
}

// All work of a label: the waits, where the train stands there and has not waited, else the moves.
fn leave(
    plan: &LentPlan,
    book: &Occupations,
    trip: &Trip,
    search: &mut Search,
    queue: &mut Queue,
    hints: &mut [usize],
    front: &Front,
    label: usize,
) -> Result<(), NoMemory>
    requires plan { IsPlan plan.now book.now }
    requires front { IsFrontOf plan.now search.old front.now }
    requires search { IsSearch plan.now trip.now book.now search.old }
    ensures search { IsSearch plan.now trip.now book.now search.new }
    ensures advanced { OnOk result (IsAdvanced plan.now search.old search.new queue.old queue.new) }
    ensures done { OnOk result (IsDone plan.now trip.now book.now search.new queue.new label
        front.now Work.Leave) }
{
    if !front.ready && place_at(plan, front.place).standing {
        return leave_waits(plan, book, trip, search, queue, hints, front, label);
    }
    leave_moves(plan, book, trip, search, queue, hints, front, label)
}

// All moves of a label, in one pass over those of its place.
fn leave_moves(
    plan: &LentPlan,
    book: &Occupations,
    trip: &Trip,
    search: &mut Search,
    queue: &mut Queue,
    hints: &mut [usize],
    front: &Front,
    label: usize,
) -> Result<(), NoMemory>
    requires plan { IsPlan plan.now book.now }
    requires front { IsFrontOf plan.now search.old front.now }
    requires goes { IsTrue (place_of plan.now front.now.place).standing → front.now.ready ≡ true }
    requires search { IsSearch plan.now trip.now book.now search.old }
    ensures search { IsSearch plan.now trip.now book.now search.new }
    ensures advanced { OnOk result (IsAdvanced plan.now search.old search.new queue.old queue.new) }
    ensures done { OnOk result ((tick : ℤ) → Holds front.now.ticks tick → (number : ℕ)
        → number < length (place_of plan.now front.now.place).moves
        → IsMoveInHand plan.now trip.now book.now search.new queue.new label front.now.place tick
        number) }
{
    let place = place_at(plan, front.place);
    let mut left = place.moves.again();
    for number in 0..place.moves.most() {
        let Some(parts) = left.split_first() else {
            return Ok(());
        };
        let FirstMove { step, behind } = parts;
        let next = OnwardMove {
            onward: Onward { label, number },
            step,
        };
        go_on(plan, book, trip, search, queue, hints, front, &next)?;
        left = behind;
    }
    Ok(())
}

fn leave_waits(
    plan: &LentPlan,
    book: &Occupations,
    trip: &Trip,
    search: &mut Search,
    queue: &mut Queue,
    hints: &mut [usize],
    front: &Front,
    label: usize,
) -> Result<(), NoMemory>
    requires plan { IsPlan plan.now book.now }
    requires front { IsFrontOf plan.now search.old front.now }
    requires standing { IsTrue (place_of plan.now front.now.place).standing }
    requires arrived { front.now.ready ≡ false }
    requires search { IsSearch plan.now trip.now book.now search.old }
    ensures search { IsSearch plan.now trip.now book.now search.new }
    ensures advanced { OnOk result (IsAdvanced plan.now search.old search.new queue.old queue.new) }
    ensures done { OnOk result ((tick : ℤ) → Holds front.now.ticks tick
        → AreWaitsInHand plan.now book.now search.new queue.new label front.now.place tick) }
{
    let known = search.labels.len();
    go_on_at_once(plan, book, trip, search, front)?;
    leave_later(plan, book, trip, search, queue, known, &at_the_end())?;
    go_on_waiting(plan, book, trip, search, queue, hints, front, label)?;
    Ok(())
}

// A move at ticks of a label, where there is such a move and the train can go on.
fn move_on(
    plan: &LentPlan,
    book: &Occupations,
    trip: &Trip,
    search: &mut Search,
    queue: &mut Queue,
    hints: &mut [usize],
    part: &Front,
    onward: Onward,
) -> Result<(), NoMemory>
    requires plan { IsPlan plan.now book.now }
    requires part { IsFrontOf plan.now search.old part.now }
    requires search { IsSearch plan.now trip.now book.now search.old }
    ensures search { IsSearch plan.now trip.now book.now search.new }
    ensures advanced { OnOk result (IsAdvanced plan.now search.old search.new queue.old queue.new) }
    ensures done { OnOk result ((IsTrue (place_of plan.now part.now.place).standing
        → part.now.ready ≡ true)
        → onward.number < length (place_of plan.now part.now.place).moves
        → (tick : ℤ) → Holds part.now.ticks tick → IsMoveInHand plan.now trip.now book.now
        search.new queue.new onward.label part.now.place tick onward.number) }
{
    let place = place_at(plan, part.place);
    if onward.number >= place.count() {
        return Ok(());
    }
    if place.standing && !part.ready {
        return Ok(());
    }
    let next = OnwardMove {
        onward,
        step: place.moves.get(onward.number),
    };
    go_on(plan, book, trip, search, queue, hints, part, &next)
}

// The waits from ticks of a label, where the train stands there and has not waited.
fn wait_on(
    plan: &LentPlan,
    book: &Occupations,
    trip: &Trip,
    search: &mut Search,
    queue: &mut Queue,
    hints: &mut [usize],
    part: &Front,
    label: usize,
) -> Result<(), NoMemory>
    requires plan { IsPlan plan.now book.now }
    requires part { IsFrontOf plan.now search.old part.now }
    requires search { IsSearch plan.now trip.now book.now search.old }
    ensures search { IsSearch plan.now trip.now book.now search.new }
    ensures advanced { OnOk result (IsAdvanced plan.now search.old search.new queue.old queue.new) }
    ensures done { OnOk result (IsTrue (place_of plan.now part.now.place).standing
        → part.now.ready ≡ false → (tick : ℤ) → Holds part.now.ticks tick
        → AreLongWaitsInHand plan.now book.now search.new queue.new label part.now.place tick) }
{
    let place = place_at(plan, part.place);
    if place.standing && !part.ready {
        return go_on_waiting(plan, book, trip, search, queue, hints, part, label);
    }
    Ok(())
}

// The first free ticks of a move among those of a label; what is behind them waits.
fn go_on(
    plan: &LentPlan,
    book: &Occupations,
    trip: &Trip,
    search: &mut Search,
    queue: &mut Queue,
    hints: &mut [usize],
    part: &Front,
    next: &OnwardMove,
) -> Result<(), NoMemory>
    requires plan { IsPlan plan.now book.now }
    requires part { IsFrontOf plan.now search.old part.now }
    requires number { next.now.onward.number < length (place_of plan.now part.now.place).moves }
    requires step { next.now.step ≡ move_of plan.now part.now.place next.now.onward.number }
    requires goes { IsTrue (place_of plan.now part.now.place).standing → part.now.ready ≡ true }
    requires search { IsSearch plan.now trip.now book.now search.old }
    ensures search { IsSearch plan.now trip.now book.now search.new }
    ensures advanced { OnOk result (IsAdvanced plan.now search.old search.new queue.old queue.new) }
    ensures done { OnOk result ((tick : ℤ) → Holds part.now.ticks tick
        → IsMoveInHand plan.now trip.now book.now search.new queue.new next.now.onward.label
        part.now.place tick next.now.onward.number) }
{
    let step = &next.step;
    let ahead = search.limits.ahead_to(step);
    let rest = enters_by(part, plan, &search.limits, step, &ahead);
    // A look at the labels costs less than one at the book.
    if is_known(search, step, &rest) {
        return Ok(());
    }
    let Some(free) = next_start_near(step.pieces(), book, hints, &rest) else {
        return Ok(());
    };
    let known = search.labels.len();
    reach(
        plan,
        book,
        trip,
        search,
        part,
        next.onward.number,
        step,
        &free,
    )?;
    let outlook = Outlook {
        target: step.target(),
        ahead,
    };
    leave_later(plan, book, trip, search, queue, known, &outlook)?;
    if free.to >= rest.to {
        return Ok(());
    }
    queue.push(&move_behind(&free, step, &ahead, next.onward))
}

// A move behind its first free ticks.
fn move_behind(free: &Window, step: &LentMove, ahead: &Ahead, onward: Onward) -> Due
    requires near { IsNear free.now.from × IsNear free.now.to }
    requires run { IsShort step.now.run }
    requires ahead { IsAhead ahead.now }
    ensures tick { result.tick ≡ ((free.now.to +ℤ pos 1) +ℤ step.now.run) +ℤ ahead.now.ticks }
    ensures label { result.task.label ≡ onward.label }
    ensures work { result.task.work ≡ Work.Move onward.number (free.now.to +ℤ pos 1) }
{
    Due {
        tick: free.to + 1 + step.run + ahead.ticks,
        task: Task {
            label: onward.label,
            work: Work::Move {
                number: onward.number,
                from: free.to + 1,
            },
        },
    }
}

// The first free ticks at which a train can stand that came at ticks of a
// label; what is behind them waits.
fn go_on_waiting(
    plan: &LentPlan,
    book: &Occupations,
    trip: &Trip,
    search: &mut Search,
    queue: &mut Queue,
    hints: &mut [usize],
    part: &Front,
    label: usize,
) -> Result<(), NoMemory>
    requires plan { IsPlan plan.now book.now }
    requires part { IsFrontOf plan.now search.old part.now }
    requires standing { IsTrue (place_of plan.now part.now.place).standing }
    requires arrived { part.now.ready ≡ false }
    requires search { IsSearch plan.now trip.now book.now search.old }
    ensures search { IsSearch plan.now trip.now book.now search.new }
    ensures advanced { OnOk result (IsAdvanced plan.now search.old search.new queue.old queue.new) }
    ensures done { OnOk result ((tick : ℤ) → Holds part.now.ticks tick
        → AreLongWaitsInHand plan.now book.now search.new queue.new label part.now.place tick) }
{
    let place = place_at(plan, part.place);
    let rest = until_the_horizon(&part.ticks, plan);
    let Some(free) = next_start_near(place.waits(), book, hints, &rest) else {
        return Ok(());
    };
    if free.from > part.ticks.to {
        return Ok(());
    }
    let known = search.labels.len();
    wait(
        plan,
        book,
        trip,
        search,
        part,
        &ready_ticks(&free, &place, plan),
    )?;
    let ahead = search.limits.ahead_at(part.place as usize);
    let outlook = Outlook {
        target: Target::Place(part.place),
        ahead,
    };
    leave_later(plan, book, trip, search, queue, known, &outlook)?;
    if free.to >= part.ticks.to {
        return Ok(());
    }
    let due = waits_behind(&free, &ahead, label);
    let below = search.limits.below();
    if due.tick >= below.ticks {
        return Ok(());
    }
    queue.push(&due)
}

// The waits of trains that came behind free ticks.
fn waits_behind(free: &Window, ahead: &Ahead, label: usize) -> Due
    requires near { IsNear free.now.from × IsNear free.now.to }
    requires ahead { IsAhead ahead.now }
    ensures tick { result.tick ≡ (free.now.to +ℤ pos 1) +ℤ ahead.now.ticks }
    ensures label { result.task.label ≡ label }
    ensures work { result.task.work ≡ Work.Wait (free.now.to +ℤ pos 1) }
{
    Due {
        tick: free.to + 1 + ahead.ticks,
        task: Task {
            label,
            work: Work::Wait { from: free.to + 1 },
        },
    }
}

// All work of the labels from a number on, by an outlook, which spares a look where a label is
// at its target.
fn leave_later(
    plan: &LentPlan,
    book: &Occupations,
    trip: &Trip,
    search: &Search,
    queue: &mut Queue,
    from: usize,
    outlook: &Outlook,
) -> Result<(), NoMemory>
    requires plan { IsPlan plan.now book.now }
    requires search { IsSearch plan.now trip.now book.now search.now }
    requires outlook { IsOutlook search.now.limits.ahead outlook.now }
    ensures kept { (due : due_type) → Waits queue.old due → Waits queue.new due }
    ensures left { OnOk result (AreToBeLeft plan.now search.now queue.new from) }
{
    for label in from..search.labels.len() {
        leave_one(plan, book, trip, search, queue, label, outlook)?;
    }
    Ok(())
}

// All work of a label, unless what it leads to cannot arrive below the limit.
fn leave_one(
    plan: &LentPlan,
    book: &Occupations,
    trip: &Trip,
    search: &Search,
    queue: &mut Queue,
    label: usize,
    outlook: &Outlook,
) -> Result<(), NoMemory>
    requires plan { IsPlan plan.now book.now }
    requires search { IsSearch plan.now trip.now book.now search.now }
    requires label { label < length search.now.labels.labels }
    requires outlook { IsOutlook search.now.limits.ahead outlook.now }
    ensures kept { (due : due_type) → Waits queue.old due → Waits queue.new due }
    ensures left { OnOk result (IsToBeLeft plan.now search.now queue.new label) }
{
    let front = search.labels.front(label);
    let ahead = ahead_by(outlook, &search.limits, front.place);
    let due = leaving(&front, &waited_at(plan, book, &front), &ahead, label);
    let below = search.limits.below();
    if due.tick >= below.ticks {
        return Ok(());
    }
    queue.push(&due)
}

// What is ahead of a place: what the outlook says where it is on that place.
fn ahead_by(outlook: &Outlook, limits: &LentLimits, place: u32) -> Ahead
    requires limits { All IsAhead limits.now.ahead }
    requires outlook { IsOutlook limits.now.ahead outlook.now }
    ensures value { result ≡ place_ahead limits.now.ahead place }
    ensures ahead { IsAhead result }
{
    match outlook.target {
        Target::Place(target) if target == place => outlook.ahead,
        _ => limits.ahead_at(place as usize),
    }
}

// The outlook on an end, which tells nothing of places.
fn at_the_end() -> Outlook
    ensures { (ahead : list_of ahead_type) → IsOutlook ahead result }
{
    Outlook {
        target: Target::End,
        ahead: Ahead { ticks: 0 },
    }
}

fn leaving(front: &Front, waited: &Ahead, ahead: &Ahead, label: usize) -> Due
    requires ticks { IsShort front.now.ticks.from }
    requires waited { IsShort waited.now.ticks }
    requires ahead { IsAhead ahead.now }
    ensures tick { result.tick ≡ front.now.ticks.from +ℤ int_max (ahead.now.ticks -ℤ
        waited.now.ticks) (pos 0) }
    ensures label { result.task.label ≡ label }
    ensures work { result.task.work ≡ Work.Leave }
{
    Due {
        tick: front.ticks.from + (ahead.ticks - waited.ticks).max(0),
        task: Task {
            label,
            work: Work::Leave,
        },
    }
}

// The ticks that a train has waited: the place of one that is not ready is not looked at.
fn waited_at(plan: &LentPlan, book: &Occupations, front: &Front) -> Ahead
    requires plan { IsPlan plan.now book.now }
    requires place { front.now.place < length plan.now.places }
    ensures value { result.ticks ≡ waited_there (place_of plan.now front.now.place)
        front.now.ready }
    ensures short { IsShort result.ticks }
{
    if front.ready {
        waited(true, &place_at(plan, front.place))
    } else {
        Ahead { ticks: 0 }
    }
}

// The ticks that a train has waited that is ready at a place.
fn waited(ready: bool, place: &LentPlace) -> Ahead
    requires dwell { IsShort place.now.dwell }
    ensures value { result.ticks ≡ waited_there place.now ready }
    ensures short { IsShort result.ticks }
{
    if ready && place.standing {
        Ahead { ticks: place.dwell }
    } else {
        Ahead { ticks: 0 }
    }
}
