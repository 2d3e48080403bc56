//! What guides the search of a request, and the searches by it.

ghost use Rattle.std.specs.Prelude.{◌≡◌, IfOk, length};
ghost use Rattle.rail_types.specs.Limits.{IsRequestWithinLimits};
ghost use Rattle.path_labels.specs.Answers.{IsAnswer, IsFinding, claims_held};
ghost use Rattle.path_labels.specs.Guides.{GuidesAreNarrow, GuidesHaveThePlaces, IsGuide};

use crate::Sought;
use crate::chart_courses::{ChartCourse, find_over};
use crate::chart_seeks::seek_over;
use crate::course_searches::{Course, find_along, seek_along};
use crate::laws::{
    chart_courses_are_narrow, chart_courses_have_the_places, courses_have_the_places,
};
use no_memory::NoMemory;
use occupation_book::Occupations;
use rail_types::{Network, Path, Request, Settings};
use std::alloc::Global;

/// The course of a request over its listed places, or over the chart of its train.
#[derive(Drop)]
pub enum Guide {
    Listed(Course),
    Charted(ChartCourse),
}

/// A request with a guide has no more places than are searched.
pub fn guides_are_narrow()
    ensures { GuidesAreNarrow }
{
    courses_have_the_places();
    chart_courses_are_narrow();
}

/// The places of a request with a guide can be listed, no more than are searched.
pub fn guides_have_the_places()
    ensures { GuidesHaveThePlaces }
{
    courses_have_the_places();
    chart_courses_have_the_places();
}

/// The path of a request that leaves last as early as any that can be granted beside what the book
/// holds, or None where none can, found by the request's guide. `NoMemory` alone is refused.
pub fn find_by(
    alloc: Global,
    net: &Network,
    settings: &Settings,
    book: &Occupations,
    request: &Request,
    guide: &Guide,
) -> Result<Option<Path>, NoMemory>
    requires zones { length book.now ≡ net.now.zones }
    requires request { IsRequestWithinLimits request.now }
    requires guide { IsGuide net.now settings.now request.now guide.now }
    ensures { IfOk result
        (IsFinding net.now settings.now (claims_held book.now) request.now) }
{
    match guide {
        Guide::Listed(course) => find_along(alloc, net, settings, book, request, course),
        Guide::Charted(course) => find_over(alloc, net, settings, book, request, course),
    }
}

/// The same with members that show it, as `seek` has them.
pub fn seek_by(
    alloc: Global,
    net: &Network,
    settings: &Settings,
    book: &Occupations,
    request: &Request,
    guide: &Guide,
) -> Result<Sought, NoMemory>
    requires zones { length book.now ≡ net.now.zones }
    requires request { IsRequestWithinLimits request.now }
    requires guide { IsGuide net.now settings.now request.now guide.now }
    ensures { IfOk result
        (IsAnswer net.now settings.now (claims_held book.now) request.now) }
{
    match guide {
        Guide::Listed(course) => seek_along(alloc, net, settings, book, request, course),
        Guide::Charted(course) => seek_over(alloc, net, settings, book, request, course),
    }
}
