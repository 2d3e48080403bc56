//! What is ahead of each place: the ticks of the fastest moves from there to an end. They are
//! found without proof and tested.

ghost use Rattle.std.specs.Prelude.{◌≡◌, ℕ, ◌<◌, pos, ◌+ℤ◌, ◌≤ℤ◌, All, IfOk, IsTrue, length};
ghost use Rattle.label_search.specs.Free.{Book};
ghost use Rattle.label_search.specs.Plans.{IsPlan, IsShort};
ghost use Rattle.label_search.specs.Paths.{place_at as place_of};
ghost use Rattle.label_search.specs.Limits.{IsAhead, IsConsistent, IsBound, least_wait as wait_of};

use crate::distances::{Entries, Entry};
use crate::lent::{LentMove, LentPlace, LentPlan};
use crate::limits::{Ahead, ahead_at, ahead_to};
use crate::plans::{Plan, Target};
use no_memory::NoMemory;
use rail_types::{FAR_TICK, List};
use std::alloc::Global;

/// The ticks from each place to an end, which no train takes faster.
pub fn bounds(alloc: Global, plan: &Plan) -> Result<List<Ahead>, NoMemory>
    requires plan { (book : Book) × IsPlan plan.now book }
    ensures ahead { IfOk result (All IsAhead) }
    ensures consistent { IfOk result (IsConsistent plan.now) }
{
    lent_bounds(alloc, &LentPlan::listed(plan))
}

// The same along a plan that is lent.
fn lent_bounds(alloc: Global, plan: &LentPlan) -> Result<List<Ahead>, NoMemory>
    requires plan { (book : Book) × IsPlan plan.now book }
    ensures ahead { IfOk result (All IsAhead) }
    ensures consistent { IfOk result (IsConsistent plan.now) }
{
    let ahead = List::from_vec(distances(alloc, plan)?);
    if are_ahead(&ahead) && are_bounds(plan, &ahead) {
        return Ok(ahead);
    }
    Ok(List::new(alloc))
}

// Whether each is a number of ticks that is not negative, and not too great to be added.
fn are_ahead(ahead: &List<Ahead>) -> bool
    ensures { IsTrue result → All IsAhead ahead.now }
{
    ahead
        .as_slice()
        .iter()
        .all(|one| 0 <= one.ticks && one.ticks <= FAR_TICK)
}

fn are_bounds(plan: &LentPlan, ahead: &List<Ahead>) -> bool
    requires plan { (book : Book) × IsPlan plan.now book }
    requires ahead { All IsAhead ahead.now }
    ensures { IsTrue result → IsConsistent plan.now ahead.now }
{
    for place in 0..plan.count() {
        if !is_bound(plan, ahead, place) {
            return false;
        }
    }
    true
}

fn is_bound(plan: &LentPlan, ahead: &List<Ahead>, place: usize) -> bool
    requires plan { (book : Book) × IsPlan plan.now book }
    requires ahead { All IsAhead ahead.now }
    requires place { place < length plan.now.places }
    ensures { IsTrue result → (number : ℕ) → number < length (place_of plan.now place).moves
        → IsBound plan.now ahead.now place number }
{
    let here = plan.place(place);
    let least = ahead_at(ahead, place);
    for number in 0..here.moves.len() {
        let step = here.moves.get(number);
        if !is_least(&here, &step, &least, &ahead_to(ahead, &step)) {
            return false;
        }
    }
    true
}

// Whether a move from a place with the wait before it takes the ticks by
// which it brings the end nearer.
fn is_least(place: &LentPlace, step: &LentMove, here: &Ahead, there: &Ahead) -> bool
    requires dwell { IsShort place.now.dwell }
    requires run { IsShort step.now.run }
    requires there { IsAhead there.now }
    ensures { IsTrue result → here.now.ticks ≤ℤ ((wait_of place.now +ℤ step.now.run) +ℤ
        there.now.ticks) }
{
    is_within(here, &least_wait(place), &run_of(step), there)
}

fn is_within(here: &Ahead, wait: &Ahead, run: &Ahead, there: &Ahead) -> bool
    requires wait { IsShort wait.now.ticks }
    requires run { IsShort run.now.ticks }
    requires there { IsAhead there.now }
    ensures { IsTrue result → here.now.ticks ≤ℤ ((wait.now.ticks +ℤ run.now.ticks) +ℤ
        there.now.ticks) }
{
    here.ticks <= wait.ticks + run.ticks + there.ticks
}

// The ticks that a move takes.
fn run_of(step: &LentMove) -> Ahead
    ensures { result.ticks ≡ step.now.run }
{
    Ahead { ticks: step.run }
}

// The ticks that a train waits at a place at least.
fn least_wait(place: &LentPlace) -> Ahead
    ensures value { result.ticks ≡ wait_of place.now }
    ensures short { IsShort place.now.dwell → IsShort result.ticks }
{
    if place.standing {
        Ahead { ticks: place.dwell }
    } else {
        Ahead { ticks: 0 }
    }
}

// The least ticks to the end.
fn distances(alloc: Global, plan: &LentPlan) -> Result<Vec<Ahead>, NoMemory> {
    let end = plan.count();
    let mut entries = Entries::none(alloc, end.saturating_add(1))?;
    put_all(&mut entries, plan)?;
    entries.distances(alloc, entries.moves_into(end))
}

// Puts the moves of a plan in, once they are counted; the end is one place behind the others.
fn put_all(entries: &mut Entries, plan: &LentPlan) -> Result<(), NoMemory> {
    let end = plan.count();
    for from in 0..end {
        count_moves(entries, end, &plan.place(from));
    }
    entries.make_room()?;
    for from in 0..end {
        put_moves(entries, end, from, &plan.place(from));
    }
    Ok(())
}

// Counts the moves from a place.
fn count_moves(entries: &mut Entries, end: usize, place: &LentPlace) {
    for number in 0..place.moves.len() {
        let step = place.moves.get(number);
        entries.count(target_of(&step, end));
    }
}

// Puts the moves from a place in.
fn put_moves(entries: &mut Entries, end: usize, from: usize, place: &LentPlace) {
    let wait = least_wait(place);
    for number in 0..place.moves.len() {
        let step = place.moves.get(number);
        let entry = Entry {
            from,
            ticks: wait.ticks.saturating_add(step.run),
        };
        entries.put(target_of(&step, end), &entry);
    }
}

fn target_of(step: &LentMove, end: usize) -> usize {
    match step.target {
        Target::Place(to) => to as usize,
        Target::End => end,
    }
}
