//! The path of a request that leaves last as early as can be.

ghost use Rattle.std.specs.Prelude.{◌≡◌, ◌≤◌, None, length, IfOk};
ghost use Rattle.rail_types.specs.declared.limits.TheConstants.{MAX_PLACES};
ghost use Rattle.rail_types.specs.Flaws.{first_flaw};
ghost use Rattle.rail_types.specs.Limits.{IsRequestWithinLimits, IsSettingsWithinLimits};
ghost use Rattle.tail_states.specs.Listed.{AreTheMoves, AreThePlaces};
ghost use Rattle.path_labels.specs.Answers.{IsAnswer, IsCount, IsFinding, claims_held};
ghost use Rattle.path_labels.specs.Answers.{count_of as count_in};

use crate::Sought;
use crate::plan_searches::{find_by_plan, planned, seek_by_plan};
use label_search::bounds;
use no_memory::NoMemory;
use occupation_book::Occupations;
use rail_types::{Network, Path, Request, Settings};
use std::alloc::Global;
use tail_states::Places;

/// The path of a request that leaves last as early as any that can be granted beside what the book
/// holds, or none where none can; with members that show it. `NoMemory` alone is refused.
pub fn seek(
    alloc: Global,
    net: &Network,
    settings: &Settings,
    book: &Occupations,
    request: &Request,
    places: &Places,
) -> Result<Sought, NoMemory>
    requires flawless { first_flaw net.now ≡ None }
    requires settings { IsSettingsWithinLimits settings.now }
    requires zones { length book.now ≡ net.now.zones }
    requires request { IsRequestWithinLimits request.now }
    requires places { AreThePlaces net.now request.now places.now.members }
    requires moves { AreTheMoves net.now request.now places.now }
    requires few { length places.now.members ≤ MAX_PLACES }
    ensures { IfOk result
        (IsAnswer net.now settings.now (claims_held book.now) request.now) }
{
    let plan = planned(alloc, net, settings, request, places)?;
    let sought = seek_by_plan(alloc, net, settings, book, request, places, &plan)?;
    Ok(sought)
}

/// The same without members, and so without the work that they take: None
/// where no path can be granted.
pub fn find(
    alloc: Global,
    net: &Network,
    settings: &Settings,
    book: &Occupations,
    request: &Request,
    places: &Places,
) -> Result<Option<Path>, NoMemory>
    requires flawless { first_flaw net.now ≡ None }
    requires settings { IsSettingsWithinLimits settings.now }
    requires zones { length book.now ≡ net.now.zones }
    requires request { IsRequestWithinLimits request.now }
    requires places { AreThePlaces net.now request.now places.now.members }
    requires moves { AreTheMoves net.now request.now places.now }
    requires few { length places.now.members ≤ MAX_PLACES }
    ensures { IfOk result
        (IsFinding net.now settings.now (claims_held book.now) request.now) }
{
    let plan = planned(alloc, net, settings, request, places)?;
    let ahead = bounds(alloc, &plan)?;
    let found = find_by_plan(alloc, net, settings, book, request, places, &plan, &ahead)?;
    Ok(found)
}

fn count_of(sought: &Sought) -> u64
    ensures { result ≡ count_in sought.now }
{
    match sought {
        Sought::Found(_, proof) => proof.members.len() as u64,
        Sought::NoPath(proof) => proof.members.len() as u64,
    }
}

/// How many members an answer of `seek` has: windows of ticks at which the train can reach the
/// end of a block, place by place.
pub fn label_count(
    alloc: Global,
    net: &Network,
    settings: &Settings,
    book: &Occupations,
    request: &Request,
    places: &Places,
) -> Result<u64, NoMemory>
    requires flawless { first_flaw net.now ≡ None }
    requires settings { IsSettingsWithinLimits settings.now }
    requires zones { length book.now ≡ net.now.zones }
    requires request { IsRequestWithinLimits request.now }
    requires places { AreThePlaces net.now request.now places.now.members }
    requires moves { AreTheMoves net.now request.now places.now }
    requires few { length places.now.members ≤ MAX_PLACES }
    ensures { IfOk result
        (IsCount net.now settings.now (claims_held book.now) request.now) }
{
    let sought = seek(alloc, net, settings, book, request, places)?;
    Ok(count_of(&sought))
}
