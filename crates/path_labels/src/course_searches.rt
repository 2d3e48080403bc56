//! What a search needs of a request, whatever its windows, and the searches by it.

ghost use Rattle.std.specs.Prelude.{◌≡◌, ◌≤◌, None, IfOk, length};
ghost use Rattle.rail_types.specs.declared.limits.TheConstants.{MAX_PLACES};
ghost use Rattle.rail_types.specs.Flaws.{first_flaw};
ghost use Rattle.rail_types.specs.Limits.{IsRequestWithinLimits, IsSettingsWithinLimits};
ghost use Rattle.tail_states.specs.Listed.{AreTheMoves, AreThePlaces};
ghost use Rattle.path_labels.specs.Answers.{IsAnswer, IsFinding, claims_held};
ghost use Rattle.path_labels.specs.Courses.{IsCourse};
ghost use Rattle.path_labels.specs.Searched.{IsPlannedWithinLimits};

use crate::Sought;
use crate::plan_searches::{find_by_plan, planned, seek_by_plan};
use label_search::{Ahead, Plan, bounds};
use no_memory::NoMemory;
use occupation_book::Occupations;
use rail_types::{List, Network, Path, Request, Settings};
use std::alloc::Global;
use tail_states::{Places, windows_change_no_places};

/// What a search needs of a request, whatever its windows: its places, their plan, and the ticks
/// ahead of each.
#[derive(Drop)]
pub struct Course {
    pub(crate) places: Places,
    pub(crate) plan: Plan,
    pub(crate) ahead: List<Ahead>,
}

impl Course {
    /// The course of a request with these places. `NoMemory` alone is refused.
    pub fn of(
        alloc: Global,
        net: &Network,
        settings: &Settings,
        request: &Request,
        places: Places,
    ) -> Result<Course, NoMemory>
        requires flawless { first_flaw net.now ≡ None }
        requires settings { IsSettingsWithinLimits settings.now }
        requires request { IsRequestWithinLimits request.now }
        requires places { AreThePlaces net.now request.now places.members }
        requires moves { AreTheMoves net.now request.now places }
        requires few { length places.members ≤ MAX_PLACES }
        ensures { IfOk result (IsCourse net.now settings.now request.now) }
    {
        let plan = planned(alloc, net, settings, request, &places)?;
        let ahead = bounds(alloc, &plan)?;
        Ok(Course {
            places,
            plan,
            ahead,
        })
    }
}

// A course has the places of the request and their plan.
fn course_is_planned(net: &Network, settings: &Settings, request: &Request, course: &Course)
    requires request { IsRequestWithinLimits request.now }
    requires course { IsCourse net.now settings.now request.now course.now }
    ensures { IsPlannedWithinLimits net.now settings.now request.now course.now.places
        course.now.plan }
{
    windows_change_no_places();
}

/// The path of a request that leaves last as early as any that can be granted beside what the book
/// holds, or None where none can, by a course of the request: nothing is listed or planned.
/// `NoMemory` alone is refused.
pub fn find_along(
    alloc: Global,
    net: &Network,
    settings: &Settings,
    book: &Occupations,
    request: &Request,
    course: &Course,
) -> Result<Option<Path>, NoMemory>
    requires zones { length book.now ≡ net.now.zones }
    requires request { IsRequestWithinLimits request.now }
    requires course { IsCourse net.now settings.now request.now course.now }
    ensures { IfOk result
        (IsFinding net.now settings.now (claims_held book.now) request.now) }
{
    course_is_planned(net, settings, request, course);
    let found = find_by_plan(
        alloc,
        net,
        settings,
        book,
        request,
        &course.places,
        &course.plan,
        &course.ahead,
    )?;
    Ok(found)
}

/// The same with members that show it, as `seek` has them.
pub fn seek_along(
    alloc: Global,
    net: &Network,
    settings: &Settings,
    book: &Occupations,
    request: &Request,
    course: &Course,
) -> Result<Sought, NoMemory>
    requires zones { length book.now ≡ net.now.zones }
    requires request { IsRequestWithinLimits request.now }
    requires course { IsCourse net.now settings.now request.now course.now }
    ensures { IfOk result
        (IsAnswer net.now settings.now (claims_held book.now) request.now) }
{
    course_is_planned(net, settings, request, course);
    let sought = seek_by_plan(
        alloc,
        net,
        settings,
        book,
        request,
        &course.places,
        &course.plan,
    )?;
    Ok(sought)
}
