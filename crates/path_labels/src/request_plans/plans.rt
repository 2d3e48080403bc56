//! The plan of a request over its listed places.

ghost use Rattle.std.specs.Prelude.{◌<◌, ◌≤◌, length, IfOk};
ghost use Rattle.rail_types.specs.declared.limits.TheConstants.{MAX_PLACES};
ghost use Rattle.rail_types.specs.Limits.{IsSettingsWithinLimits};
ghost use Rattle.tail_states.specs.Asked.{IsAsked};
ghost use Rattle.tail_states.specs.Listed.{AreTheMoves, AreThePlaces};
ghost use Rattle.path_labels.specs.Plans.{IsPlanOf, IsPlannedAt};

use crate::request_plans::places::planned_place;
use label_search::{Place as PlannedPlace, Plan};
use no_memory::NoMemory;
use rail_types::{List, Network, Request, Settings};
use stair_pieces::Place;
use std::alloc::Global;
use tail_states::{Places, places_may_be_cut};

/// The plan of a request: the start place, and each listed place at the number behind its own.
pub fn plan_of(
    alloc: Global,
    net: &Network,
    settings: &Settings,
    request: &Request,
    places: &Places,
) -> Result<Plan, NoMemory>
    requires asked { IsAsked net.now request.now }
    requires settings { IsSettingsWithinLimits settings.now }
    requires places { AreThePlaces net.now request.now places.now.members }
    requires moves { AreTheMoves net.now request.now places.now }
    requires few { length places.now.members ≤ MAX_PLACES }
    ensures { IfOk result (IsPlanOf net.now settings.now request.now places.now) }
{
    places_may_be_cut();
    let start = Place::start(alloc);
    let first = planned_place(alloc, net, settings, request, &start, places.starts())?;
    let mut planned = List::new(alloc);
    planned.push(first)?;
    for number in 0..places.count() {
        planned.push(listed_place(alloc, net, settings, request, places, number as u32)?)?;
    }
    Ok(Plan {
        places: planned,
        horizon: i64::from(settings.horizon),
    })
}

fn listed_place(
    alloc: Global,
    net: &Network,
    settings: &Settings,
    request: &Request,
    places: &Places,
    number: u32,
) -> Result<PlannedPlace, NoMemory>
    requires asked { IsAsked net.now request.now }
    requires settings { IsSettingsWithinLimits settings.now }
    requires places { AreThePlaces net.now request.now places.now.members }
    requires moves { AreTheMoves net.now request.now places.now }
    requires few { length places.now.members ≤ MAX_PLACES }
    requires number { number < length places.now.members }
    ensures { IfOk result
        (IsPlannedAt net.now settings.now request.now places.now number) }
{
    places_may_be_cut();
    let place = places.place(number);
    let moves = places.moves(number);
    let planned = planned_place(alloc, net, settings, request, place, moves)?;
    Ok(planned)
}
