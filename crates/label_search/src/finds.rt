//! The path that arrives first where no members are asked for: what could
//! arrive later is not looked at.

ghost use Rattle.std.specs.Prelude.{◌≡◌, ◌⊎◌, ◌<ℤ◌, pos, All, IfOk};
ghost use Rattle.std.specs.Int.{int_max, int_min};
ghost use Rattle.label_search.specs.Plans.{IsPlan, IsShort};
ghost use Rattle.label_search.specs.Limits.{IsAhead, IsConsistent, IsLimits};
ghost use Rattle.label_search.specs.Found.{IsFinding, IsFoundBelow};
ghost use Rattle.label_search.specs.Pending.{IsSettled};
ghost use Rattle.label_search.specs.Search.{IsSearch, IsStarted};

use crate::firsts::explore_first;
use crate::lent::LentPlan;
use crate::lent_limits::{Aheads, LentLimits};
use crate::limits::{Ahead, Limits};
use crate::paths::path_to;
use crate::plans::{Plan, Step, Trip};
use crate::searches::Search;
use no_memory::NoMemory;
use occupation_book::Occupations;
use rail_types::List;
use std::alloc::Global;

/// A path that arrives as early as any, or none.
#[derive(Debug, Drop)]
pub enum Finding {
    Found(List<Step>),
    NoPath,
}

/// Looks for a path that fits and arrives as early as any, by the ticks
/// ahead of each place at least.
pub fn find(
    alloc: Global,
    plan: &Plan,
    book: &Occupations,
    trip: &Trip,
    ahead: &List<Ahead>,
) -> Result<Finding, NoMemory>
    requires plan { IsPlan plan.now book.now }
    requires ahead { All IsAhead ahead.now }
    requires consistent { IsConsistent plan.now ahead.now }
    ensures { IfOk result (IsFinding plan.now trip.now book.now) }
{
    find_lent(
        alloc,
        &LentPlan::listed(plan),
        book,
        trip,
        &Aheads::listed(ahead),
    )
}

/// The same along a plan that is lent, by what is ahead of each place as it is lent.
pub fn find_lent(
    alloc: Global,
    plan: &LentPlan,
    book: &Occupations,
    trip: &Trip,
    ahead: &Aheads,
) -> Result<Finding, NoMemory>
    requires plan { IsPlan plan.now book.now }
    requires ahead { All IsAhead ahead.now }
    requires consistent { IsConsistent plan.now ahead.now }
    ensures { IfOk result (IsFinding plan.now trip.now book.now) }
{
    let limits = limits_behind(plan, trip, ahead);
    let found = find_lent_below(alloc, plan, book, trip, limits)?;
    let Some(steps) = found else {
        return Ok(Finding::NoPath);
    };
    Ok(Finding::Found(steps))
}

/// The path that arrives first, or none where no path ends below the limit.
pub fn find_below(
    alloc: Global,
    plan: &Plan,
    book: &Occupations,
    trip: &Trip,
    limits: Limits,
) -> Result<Option<List<Step>>, NoMemory>
    requires plan { IsPlan plan.now book.now }
    requires limits { IsLimits limits }
    requires consistent { IsConsistent plan.now limits.ahead }
    ensures { IfOk result (IsFoundBelow plan.now trip.now book.now limits.below) }
{
    find_lent_below(
        alloc,
        &LentPlan::listed(plan),
        book,
        trip,
        LentLimits::listed(&limits),
    )
}

fn find_lent_below(
    alloc: Global,
    plan: &LentPlan,
    book: &Occupations,
    trip: &Trip,
    limits: LentLimits,
) -> Result<Option<List<Step>>, NoMemory>
    requires plan { IsPlan plan.now book.now }
    requires limits { IsLimits limits }
    requires consistent { IsConsistent plan.now limits.ahead }
    ensures { IfOk result (IsFoundBelow plan.now trip.now book.now limits.entry.below) }
{
    let search = explore_first(alloc, plan, book, trip, limits)?;
    path_found(alloc, plan, book, trip, &search)
}

// The path to the best end of a search before which no work is due.
fn path_found(
    alloc: Global,
    plan: &LentPlan,
    book: &Occupations,
    trip: &Trip,
    search: &Search,
) -> Result<Option<List<Step>>, NoMemory>
    requires plan { IsPlan plan.now book.now }
    requires search { IsSearch plan.now trip.now book.now search.now }
    requires started { IsStarted plan.now trip.now search.now }
    requires settled { IsSettled plan.now trip.now book.now search.now }
    requires consistent { IsConsistent plan.now search.now.limits.ahead }
    ensures { IfOk result (IsFoundBelow plan.now trip.now book.now search.now.limits.below) }
{
    let Some(ending) = search.best else {
        return Ok(None);
    };
    let steps = path_to(alloc, plan, book, trip, search, &ending)?;
    Ok(Some(steps))
}

// A limit that no path can arrive behind.
fn limits_behind<'a>(plan: &LentPlan, trip: &Trip, ahead: &Aheads<'a>) -> LentLimits<'a>
    requires horizon { IsShort plan.now.horizon }
    requires ahead { All IsAhead ahead.now }
    ensures limits { IsLimits result }
    ensures ahead { result.ahead ≡ ahead.now }
    ensures past { (plan.now.horizon <ℤ result.below) ⊎ (trip.now.arrive.to <ℤ result.below) }
{
    let last = last_arrival(plan, trip);
    LentLimits {
        ahead: ahead.again(),
        below: last.ticks + 1,
    }
}

// The last tick by which a path can arrive, or 0.
fn last_arrival(plan: &LentPlan, trip: &Trip) -> Ahead
    ensures { result.ticks ≡ int_max (int_min plan.now.horizon trip.now.arrive.to) (pos 0) }
{
    Ahead {
        ticks: plan.horizon.min(trip.arrive.to).max(0),
    }
}
