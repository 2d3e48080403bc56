//! The plan of a request, and the search by it.

ghost use Rattle.std.specs.Prelude.{◌≡◌, ◌≤◌, All, None, length, IfOk};
ghost use Rattle.rail_types.specs.declared.limits.TheConstants.{MAX_PLACES};
ghost use Rattle.rail_types.specs.Flaws.{first_flaw};
ghost use Rattle.rail_types.specs.Limits.{IsRequestWithinLimits, IsSettingsWithinLimits};
ghost use Rattle.tail_states.specs.Listed.{AreTheMoves, AreThePlaces};
ghost use Rattle.label_search.specs.Free.{Book};
ghost use Rattle.label_search.specs.Limits.{IsAhead, IsConsistent};
ghost use Rattle.label_search.specs.Plans.{IsPlan};
ghost use Rattle.path_labels.specs.Answers.{IsAnswer, IsFinding, claims_held};
ghost use Rattle.path_labels.specs.Joining.{ArePlannedMoves, HoldsTicks, trip_of};
ghost use Rattle.path_labels.specs.Searched.{IsPlannedWithinLimits};

use crate::Sought;
use crate::laws::{closed_plans_are_closed, granted_paths_are_planned, planned_paths_are_granted};
use crate::members::told_members;
use crate::paths::told_path;
use crate::request_plans::{plan_of, plans_may_be_searched};
use label_search::{
    Ahead, Finding, Plan, Sought as Planned, Trip, find as find_planned, seek as seek_planned,
};
use no_memory::NoMemory;
use occupation_book::Occupations;
use rail_types::{List, Network, Path, Request, Settings};
use std::alloc::Global;
use tail_states::{Places, sound_networks_are_asked, windows_change_no_places};

/// The windows of a request.
pub(crate) fn trip(request: &Request) -> Trip
    ensures { result ≡ trip_of request.now }
{
    Trip {
        depart: request.depart,
        arrive: request.arrive,
    }
}

/// The claims that a book holds have ticks.
pub(crate) fn claims_have_ticks(book: &Occupations)
    ensures { HoldsTicks book.now }
{
    book.zones();
}

/// The plan of a request, which may be searched.
pub(crate) fn planned(
    alloc: Global,
    net: &Network,
    settings: &Settings,
    request: &Request,
    places: &Places,
) -> Result<Plan, NoMemory>
    requires flawless { first_flaw net.now ≡ None }
    requires settings { IsSettingsWithinLimits settings.now }
    requires request { IsRequestWithinLimits request.now }
    requires places { AreThePlaces net.now request.now places.now.members }
    requires moves { AreTheMoves net.now request.now places.now }
    requires few { length places.now.members ≤ MAX_PLACES }
    ensures planned { IfOk result
        (IsPlannedWithinLimits net.now settings.now request.now places.now) }
    ensures searched { IfOk result (λ plan. (book : Book) × IsPlan plan book) }
{
    sound_networks_are_asked();
    plans_may_be_searched();
    let plan = plan_of(alloc, net, settings, request, places)?;
    Ok(plan)
}

// A plan may be searched beside a book of the network's zones, and its steps may be told.
fn plan_is_ready(
    net: &Network,
    settings: &Settings,
    book: &Occupations,
    request: &Request,
    places: &Places,
    plan: &Plan,
)
    requires zones { length book.now ≡ net.now.zones }
    requires planned { IsPlannedWithinLimits net.now settings.now request.now places.now plan.now }
    ensures plan { IsPlan plan.now book.now }
    ensures moves { ArePlannedMoves places.now plan.now }
{
    plans_may_be_searched();
}

/// What `seek` answers, by the plan of a request.
pub(crate) fn seek_by_plan(
    alloc: Global,
    net: &Network,
    settings: &Settings,
    book: &Occupations,
    request: &Request,
    places: &Places,
    plan: &Plan,
) -> Result<Sought, NoMemory>
    requires zones { length book.now ≡ net.now.zones }
    requires planned { IsPlannedWithinLimits net.now settings.now request.now places.now plan.now }
    ensures { IfOk result
        (IsAnswer net.now settings.now (claims_held book.now) request.now) }
{
    planned_paths_are_granted();
    granted_paths_are_planned();
    closed_plans_are_closed();
    windows_change_no_places();
    claims_have_ticks(book);
    plan_is_ready(net, settings, book, request, places, plan);
    match seek_planned(alloc, plan, book, &trip(request))? {
        Planned::Found(steps, members) => {
            let path = told_path(alloc, request, places, plan, &steps)?;
            let proof = told_members(alloc, places, &members)?;
            Ok(Sought::Found(path, proof))
        }
        Planned::NoPath(members) => {
            let proof = told_members(alloc, places, &members)?;
            Ok(Sought::NoPath(proof))
        }
    }
}

/// What `find` answers, by the plan of a request and the ticks ahead of each place.
pub(crate) fn find_by_plan(
    alloc: Global,
    net: &Network,
    settings: &Settings,
    book: &Occupations,
    request: &Request,
    places: &Places,
    plan: &Plan,
    ahead: &List<Ahead>,
) -> Result<Option<Path>, NoMemory>
    requires zones { length book.now ≡ net.now.zones }
    requires planned { IsPlannedWithinLimits net.now settings.now request.now places.now plan.now }
    requires ahead { All IsAhead ahead.now }
    requires consistent { IsConsistent plan.now ahead.now }
    ensures { IfOk result
        (IsFinding net.now settings.now (claims_held book.now) request.now) }
{
    planned_paths_are_granted();
    granted_paths_are_planned();
    claims_have_ticks(book);
    plan_is_ready(net, settings, book, request, places, plan);
    match find_planned(alloc, plan, book, &trip(request), ahead)? {
        Finding::Found(steps) => {
            let path = told_path(alloc, request, places, plan, &steps)?;
            Ok(Some(path))
        }
        Finding::NoPath => Ok(None),
    }
}
