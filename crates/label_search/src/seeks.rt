//! The path that arrives first, or none, each with members that show it.

ghost use Rattle.std.specs.Prelude.{IfOk, length};
ghost use Rattle.label_search.specs.Plans.{IsPlan};
ghost use Rattle.label_search.specs.Sought.{IsSearched, IsSought};
ghost use Rattle.label_search.specs.Limits.{IsConsistent, IsLimits};
ghost use Rattle.label_search.specs.Search.{IsExploredTo, IsSearch, IsStarted};

use crate::lent::LentPlan;
use crate::lent_limits::LentLimits;
use crate::limits::{Limits, no_limits};
use crate::paths::path_to;
use crate::plans::{Member, Plan, Step, Trip};
use crate::searches::{Search, explore_all};
use no_memory::NoMemory;
use occupation_book::Occupations;
use rail_types::List;
use std::alloc::Global;

/// A path that arrives as early as any, or none; with the places and ticks that can be reached.
#[derive(Debug, Drop)]
pub enum Sought {
    Found(List<Step>, List<Member>),
    NoPath(List<Member>),
}

/// Looks for a path that fits and arrives as early as any, below a limit. Beside it the
/// members are closed below the limit for the trip that would arrive before it, and beside
/// `NoPath` for the trip itself.
pub fn search(
    alloc: Global,
    plan: &Plan,
    book: &Occupations,
    trip: &Trip,
    limits: Limits,
) -> Result<Sought, NoMemory>
    requires plan { IsPlan plan.now book.now }
    requires limits { IsLimits limits }
    requires consistent { IsConsistent plan.now limits.ahead }
    ensures { IfOk result (IsSearched plan.now trip.now book.now limits) }
{
    search_lent(
        alloc,
        &LentPlan::listed(plan),
        book,
        trip,
        LentLimits::listed(&limits),
    )
}

fn search_lent(
    alloc: Global,
    plan: &LentPlan,
    book: &Occupations,
    trip: &Trip,
    limits: LentLimits,
) -> Result<Sought, NoMemory>
    requires plan { IsPlan plan.now book.now }
    requires limits { IsLimits limits }
    requires consistent { IsConsistent plan.now limits.ahead }
    ensures { IfOk result (IsSearched plan.now trip.now book.now limits.entry) }
{
    let search = explore_all(alloc, plan, book, trip, limits)?;
    sought_by(alloc, plan, book, trip, &search)
}

// What a search has found all of whose labels are explored.
fn sought_by(
    alloc: Global,
    plan: &LentPlan,
    book: &Occupations,
    trip: &Trip,
    search: &Search,
) -> Result<Sought, NoMemory>
    requires plan { IsPlan plan.now book.now }
    requires search { IsSearch plan.now trip.now book.now search.now }
    requires started { IsStarted plan.now trip.now search.now }
    requires explored { IsExploredTo plan.now trip.now book.now (λ search. length
        search.labels.labels) search.now }
    requires consistent { IsConsistent plan.now search.now.limits.ahead }
    ensures { IfOk result (IsSearched plan.now trip.now book.now search.now.limits) }
{
    let members = List::from_vec(search.labels.members(alloc)?);
    let Some(ending) = search.best else {
        return Ok(Sought::NoPath(members));
    };
    let steps = path_to(alloc, plan, book, trip, search, &ending)?;
    Ok(Sought::Found(steps, members))
}

/// The same below no limit.
pub fn seek(alloc: Global, plan: &Plan, book: &Occupations, trip: &Trip) -> Result<Sought, NoMemory>
    requires plan { IsPlan plan.now book.now }
    ensures { IfOk result (IsSought plan.now trip.now book.now) }
{
    seek_lent(alloc, &LentPlan::listed(plan), book, trip)
}

/// The same over a plan that is lent.
pub fn seek_lent(
    alloc: Global,
    plan: &LentPlan,
    book: &Occupations,
    trip: &Trip,
) -> Result<Sought, NoMemory>
    requires plan { IsPlan plan.now book.now }
    ensures { IfOk result (IsSought plan.now trip.now book.now) }
{
    let limits = no_limits(alloc);
    let sought = search_lent(alloc, plan, book, trip, LentLimits::listed(&limits))?;
    Ok(sought)
}
