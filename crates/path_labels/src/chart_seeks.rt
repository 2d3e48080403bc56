//! The search over the chart of a train whose answer has members that show it.

ghost use Rattle.std.specs.Prelude.{◌≡◌, ◌<◌, ◌*◌, All, IfOk, length};
ghost use Rattle.rail_types.specs.Limits.{IsRequestWithinLimits};
ghost use Rattle.tail_states.specs.Spots.{with_made};
ghost use Rattle.label_search.specs.Charts.{HasNumbers};
ghost use Rattle.path_labels.specs.Answers.{IsAnswer, claims_held};
ghost use Rattle.path_labels.specs.ChartCourses.{IsChartCourse, member_along, members_along};
ghost use Rattle.path_labels.specs.Joining.{IsBehindTheStart, member_in, members_in};

use crate::Sought;
use crate::chart_courses::{ChartCourse, told_over};
use crate::laws::{
    charts_are_planned, closed_plans_are_closed, granted_paths_are_planned,
    planned_paths_are_granted,
};
use crate::plan_searches::{claims_have_ticks, trip};
use label_search::{Member as PlannedMember, Sought as Planned, seek_lent};
use no_memory::NoMemory;
use occupation_book::Occupations;
use rail_types::{List, Network, Request, Settings};
use stair_pieces::Place;
use std::alloc::Global;
use tail_states::{Closed, Member, Spots, windows_change_no_places};

/// What `seek` answers, by the request's course over the chart of its train: nothing is listed or
/// planned. `NoMemory` alone is refused.
pub fn seek_over(
    alloc: Global,
    net: &Network,
    settings: &Settings,
    book: &Occupations,
    request: &Request,
    course: &ChartCourse,
) -> Result<Sought, NoMemory>
    requires zones { length book.now ≡ net.now.zones }
    requires request { IsRequestWithinLimits request.now }
    requires course { IsChartCourse net.now settings.now request.now course.now }
    ensures { IfOk result
        (IsAnswer net.now settings.now (claims_held book.now) request.now) }
{
    planned_paths_are_granted();
    granted_paths_are_planned();
    closed_plans_are_closed();
    windows_change_no_places();
    charts_are_planned();
    claims_have_ticks(book);
    let plan = course.plan(settings);
    let levels = levels_of(course);
    match seek_lent(alloc, &plan, book, &trip(request))? {
        Planned::Found(steps, members) => {
            let path = told_over(alloc, settings, request, course, &plan, &steps)?;
            let proof = told_members_over(alloc, &course.chart.spots, levels, &members)?;
            Ok(Sought::Found(path, proof))
        }
        Planned::NoPath(members) => {
            let proof = told_members_over(alloc, &course.chart.spots, levels, &members)?;
            Ok(Sought::NoPath(proof))
        }
    }
}

// How many counts of stops made there are.
fn levels_of(course: &ChartCourse) -> u32
    requires { HasNumbers course.now.chart.chart.spots course.now.calls }
    ensures { result ≡ length course.now.calls }
{
    course.calls.len() as u32
}

// A place with another count of stops made.
fn with_stops(alloc: Global, place: &Place, made: u32) -> Result<Place, NoMemory>
    ensures { IfOk result (λ told. told ≡ with_made place.now made) }
{
    Ok(Place {
        tail: place.tail.copy(alloc)?,
        entered: place.entered,
        standing: place.standing,
        made,
    })
}

// The place of a number: each spot with each count of stops made.
fn numbered_place(alloc: Global, spots: &Spots, levels: u32, number: u32) -> Result<Place, NoMemory>
    requires levels { 0 < levels }
    requires number { number < length spots.now.spots * levels }
    ensures { IfOk result (λ place. place ≡ member_along spots.now.spots levels number) }
{
    let spot = spots.spot(number / levels);
    let place = with_stops(alloc, spot, number % levels)?;
    Ok(place)
}

fn numbered_member(
    alloc: Global,
    spots: &Spots,
    levels: u32,
    member: &PlannedMember,
) -> Result<Member, NoMemory>
    requires levels { 0 < levels }
    requires behind { IsBehindTheStart (members_along spots.now.spots levels) member.now }
    ensures { IfOk result (λ told.
        told ≡ member_in (members_along spots.now.spots levels) member.now) }
{
    let place = numbered_place(alloc, spots, levels, member.place - 1)?;
    Ok(Member {
        place,
        window: member.window,
    })
}

// The members of a plan over a chart by the places of its request.
fn told_members_over(
    alloc: Global,
    spots: &Spots,
    levels: u32,
    members: &List<PlannedMember>,
) -> Result<Closed, NoMemory>
    requires levels { 0 < levels }
    requires behind { All (IsBehindTheStart (members_along spots.now.spots levels)) members.now }
    ensures { IfOk result (λ closed.
        closed.members ≡ members_in (members_along spots.now.spots levels) members.now) }
{
    let mut told = List::new(alloc);
    for member in members.as_slice() {
        told.push(numbered_member(alloc, spots, levels, member)?)?;
    }
    Ok(Closed { members: told })
}
