//! The path to an end, from the labels that led there.

ghost use Rattle.std.specs.Prelude.{◌≡◌, ◌<◌, ◌-ℤ◌, [], false, length, reverse, IfOk, OnOk};
ghost use Rattle.std.specs.Int.{int_min};
ghost use Rattle.label_search.specs.Paths.{IsPath, PathFits, arrival};
ghost use Rattle.label_search.specs.Plans.{IsPlan, IsShort};
ghost use Rattle.label_search.specs.Search.{IsEnding, IsSearch};

use crate::labels::{Moment, Origin};
use crate::lent::{LentMove, LentPlace, LentPlan};
use crate::plans::{Step, Trip};
use crate::searches::{Ending, Search, move_at, place_at};
use no_memory::NoMemory;
use occupation_book::Occupations;
use rail_types::{List, Window};
use std::alloc::Global;

/// The path that ends there, as early as the ending allows.
pub(crate) fn path_to(
    alloc: Global,
    plan: &LentPlan,
    book: &Occupations,
    trip: &Trip,
    search: &Search,
    ending: &Ending,
) -> Result<List<Step>, NoMemory>
    requires plan { IsPlan plan.now book.now }
    requires search { IsSearch plan.now trip.now book.now search.now }
    requires ending { IsEnding plan.now trip.now book.now search.now.labels.labels ending.now }
    ensures path { IfOk result (IsPath plan.now trip.now) }
    ensures fits { IfOk result (PathFits plan.now book.now) }
    ensures arrival { IfOk result (λ steps. arrival plan.now steps ≡ ending.now.arrive.from) }
{
    let mut steps = Vec::new(alloc);
    push_back(plan, book, trip, search, ending, &mut steps)?;
    steps.reverse();
    Ok(List::from_vec(steps))
}

// Puts the steps of that path into an empty list, the last one first.
fn push_back(
    plan: &LentPlan,
    book: &Occupations,
    trip: &Trip,
    search: &Search,
    ending: &Ending,
    steps: &mut Vec<Step>,
) -> Result<(), NoMemory>
    requires plan { IsPlan plan.now book.now }
    requires search { IsSearch plan.now trip.now book.now search.now }
    requires ending { IsEnding plan.now trip.now book.now search.now.labels.labels ending.now }
    requires none { steps.old.items ≡ [] }
    ensures path { OnOk result (IsPath plan.now trip.now (reverse steps.new.items)) }
    ensures fits { OnOk result (PathFits plan.now book.now (reverse steps.new.items)) }
    ensures arrival { OnOk result (arrival plan.now (reverse steps.new.items)
        ≡ ending.now.arrive.from) }
{
    let step = move_at(plan, ending.place, ending.number);
    let mut at = entered(&step, ending.place, ending.ready, &end_of(ending));
    steps.push(step_of(ending.number, &at))?;
    let mut until = search.labels.len();
    loop {
        let source = search.labels.source_of(&at, until);
        until = source.number;
        match source.origin {
            Origin::Start => return Ok(()),
            Origin::Wait { arrivals } => {
                at = came(&arrivals, &place_at(plan, at.place), &at);
            }
            Origin::Move {
                from,
                ready,
                number,
            } => {
                at = entered(&move_at(plan, from, number), from, ready, &at);
                steps.push(step_of(number, &at))?;
            }
        }
    }
}

fn end_of(ending: &Ending) -> Moment
    ensures { result.tick ≡ ending.now.arrive.from }
{
    Moment {
        place: ending.place,
        ready: ending.ready,
        tick: ending.arrive.from,
    }
}

// When the train entered the move that it left at a moment.
fn entered(step: &LentMove, place: u32, ready: bool, left: &Moment) -> Moment
    requires tick { IsShort left.now.tick }
    requires run { IsShort step.now.run }
    ensures place { result.place ≡ place }
    ensures ready { result.ready ≡ ready }
    ensures tick { result.tick ≡ left.now.tick -ℤ step.now.run }
{
    Moment {
        place,
        ready,
        tick: left.tick - step.run,
    }
}

// When the train came, at the latest, that goes on at a moment.
fn came(arrivals: &Window, place: &LentPlace, on: &Moment) -> Moment
    requires tick { IsShort on.now.tick }
    requires dwell { IsShort place.now.dwell }
    ensures place { result.place ≡ on.now.place }
    ensures ready { result.ready ≡ false }
    ensures tick { result.tick ≡ int_min arrivals.now.to (on.now.tick -ℤ place.now.dwell) }
{
    Moment {
        place: on.place,
        ready: false,
        tick: arrivals.to.min(on.tick - place.dwell),
    }
}

fn step_of(number: usize, at: &Moment) -> Step
    ensures number { result.number ≡ number }
    ensures enter { result.enter ≡ at.now.tick }
{
    Step {
        number,
        enter: at.tick,
    }
}
