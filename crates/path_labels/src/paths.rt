//! The path of a request that a path of its plan makes.

ghost use Rattle.std.specs.Prelude.{◌≡◌, ◌+◌, ◌<◌, pos, ◌+ℤ◌, ◌≤ℤ◌, length, IfOk};
ghost use Rattle.label_search.specs.declared.plans.Target.TheVariants.{Place as To};
ghost use Rattle.label_search.specs.Paths.{IsMove as IsPlannedMove, target_of};
ghost use Rattle.label_search.specs.declared.plans.TheConstants.{LATEST};
ghost use Rattle.stair_pieces.specs.Places.{stands_after};
ghost use Rattle.path_labels.specs.Joining.{ArePlannedMoves, AreSteps, moves_of, path_in, run_of};

use label_search::{Move as PlannedMove, Plan, Step, Target};
use no_memory::NoMemory;
use rail_types::{List, Path, Request, Run};
use running_time::Edge;
use std::alloc::Global;
use tail_states::{Move, Places};

// The moves from the planned place of a number.
fn moves_at(places: &Places, number: u32) -> &[Move]
    requires moves { length places.now.moves ≡ length places.now.members }
    requires number { number < length places.now.members + 1 }
    ensures { result.now ≡ moves_of places.now number }
{
    if number == 0 {
        return places.starts();
    }
    places.moves(number - 1)
}

/// Whether a train halts at the end of a run.
pub(crate) fn is_still(exit: Edge) -> bool
    ensures { result ≡ stands_after exit }
{
    match exit {
        Edge::Still => true,
        Edge::Rolling => false,
    }
}

// The run of a step that makes a move.
fn run_of_step(one: &Move, planned: &PlannedMove, step: &Step) -> Run
    requires begins { pos 0 ≤ℤ step.now.enter }
    requires ends { (step.now.enter +ℤ planned.now.run) ≤ℤ LATEST }
    ensures block { result.block ≡ one.now.step.block }
    ensures enter { result.enter ≡ step.now.enter }
    ensures leave { result.leave ≡ step.now.enter +ℤ planned.now.run }
    ensures stops { result.stops ≡ stands_after one.now.step.exit }
{
    Run {
        block: one.step.block,
        enter: step.enter,
        leave: step.enter + planned.run,
        stops: is_still(one.step.exit),
    }
}

// The run of a step from the planned place of a number.
fn run_at(plan: &Plan, places: &Places, number: u32, step: &Step) -> Run
    requires planned { ArePlannedMoves places.now plan.now }
    requires horizon { plan.now.horizon ≤ℤ LATEST }
    requires number { number < length plan.now.places }
    requires step { IsPlannedMove plan.now number step.now }
    ensures { result ≡ run_of places.now plan.now number step.now }
{
    let one = &moves_at(places, number)[step.number];
    let planned = &plan.places.as_slice()[number as usize].moves.as_slice()[step.number];
    run_of_step(one, planned, step)
}

// Where the step of a planned place leads.
fn target_at(plan: &Plan, number: u32, step: &Step) -> Target
    requires number { number < length plan.now.places }
    requires step { IsPlannedMove plan.now number step.now }
    ensures { result ≡ target_of plan.now number step.now }
{
    plan.places.as_slice()[number as usize].moves.as_slice()[step.number].target
}

/// The path that the steps of a planned path make.
pub(crate) fn told_path(
    alloc: Global,
    request: &Request,
    places: &Places,
    plan: &Plan,
    steps: &List<Step>,
) -> Result<Path, NoMemory>
    requires planned { ArePlannedMoves places.now plan.now }
    requires horizon { plan.now.horizon ≤ℤ LATEST }
    requires steps { AreSteps plan.now (To 0) steps.now }
    ensures { IfOk result (λ path. path ≡ path_in request.now places.now plan.now steps.now) }
{
    let mut runs = List::new(alloc);
    let mut target = Target::Place(0);
    for step in steps.as_slice() {
        let Target::Place(number) = target else {
            unreachable!()
        };
        runs.push(run_at(plan, places, number, step))?;
        target = target_at(plan, number, step);
    }
    Ok(Path {
        train: request.train.copy(alloc)?,
        runs,
    })
}
