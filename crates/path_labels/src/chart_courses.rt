//! The course of a request over the chart of its train, and the search that has it.

ghost use Rattle.std.specs.Prelude.{◌≡◌, ◌<◌, ◌≤◌, ◌+ℤ◌, ◌≤ℤ◌, All, IfOk, IsTrue, OnOk};
ghost use Rattle.std.specs.Prelude.{length, map, pos};
ghost use Rattle.rail_types.specs.declared.limits.TheConstants.{MAX_STOPS};
ghost use Rattle.rail_types.specs.Limits.{IsRequestWithinLimits};
ghost use Rattle.blocking_time.specs.Possible.{IsPossible};
ghost use Rattle.running_time.specs.declared.edges.Edge.TheVariants.{Rolling};
ghost use Rattle.stair_pieces.specs.Places.{start_place};
ghost use Rattle.tail_states.specs.Following.{AreFollowers};
ghost use Rattle.tail_states.specs.Spots.{AreFewEnough, IsStride};
ghost use Rattle.label_search.specs.declared.plans.Target.TheVariants.{Place as To};
ghost use Rattle.label_search.specs.declared.plans.TheConstants.{LATEST};
ghost use Rattle.label_search.specs.Charts.{HasNumbers, LeadOnChart};
ghost use Rattle.label_search.specs.Endings.{last_call, spots_before};
ghost use Rattle.label_search.specs.Nearing.{AreRests, HaveShortDwells};
ghost use Rattle.path_labels.specs.Answers.{IsFinding, claims_held};
ghost use Rattle.path_labels.specs.ChartCourses.{
  AddsStart,
  AddsStarts,
  AreCalls,
  AreStarts,
  IsCallAt,
  IsChartCourse,
  listed_along,
  plan_along,
};
ghost use Rattle.path_labels.specs.Joining.{AreSteps, path_in};
ghost use Rattle.path_labels.specs.KeptNears.{AreNearAt, GoOn, IsNearAt, IsNearKept, near_kept};
ghost use Rattle.path_labels.specs.TrainCharts.{IsChartOf};

use crate::laws::{charts_are_planned, granted_paths_are_planned, planned_paths_are_granted};
use crate::plan_searches::{claims_have_ticks, trip};
use crate::request_plans::dwell_after;
use crate::train_charts::{TrainChart, charted_way};
use label_search::{
    Ahead, Aheads, ChartCall, ChartWay, Finding, LentPlan, Step as PlannedStep, Target,
    ends_are_shut, find_lent, rests_of, way_on_chart,
};
use no_memory::NoMemory;
use occupation_book::Occupations;
use rail_types::{List, Network, Path, Request, Run, Settings};
use running_time::Edge;
use stair_pieces::{Place, Step};
use std::alloc::Global;
use tail_states::{Followers, sound_networks_are_run, stop_ahead};

/// What a search needs of a request, whatever its windows: the chart of its train, the ways of its
/// start, what is asked at each count of stops made, where the chart keeps how near the train is to
/// each of these calls, and what is left behind each.
#[derive(Drop)]
pub struct ChartCourse {
    pub(crate) chart: TrainChart,
    pub(crate) starts: List<ChartWay>,
    pub(crate) calls: List<ChartCall>,
    pub(crate) numbers: Vec<usize>,
    pub(crate) rests: List<Ahead>,
}

impl ChartCourse {
    /// The course of a request over the chart of its train. `NoMemory` alone is refused.
    pub fn of(
        alloc: Global,
        net: &Network,
        settings: &Settings,
        followers: &Followers,
        request: &Request,
        chart: TrainChart,
    ) -> Result<ChartCourse, NoMemory>
        requires followers { AreFollowers net.now followers.now }
        requires request { IsRequestWithinLimits request.now }
        requires chart { IsChartOf net.now settings.now request.now.train chart }
        requires few { AreFewEnough request.now chart.spots }
        ensures course { IfOk result (IsChartCourse net.now settings.now request.now) }
        ensures spots { IfOk result (λ course. course.chart.spots ≡ chart.spots) }
        ensures chart { IfOk result (λ course. course.chart.chart ≡ chart.chart) }
        ensures nears { IfOk result (λ course.
            GoOn chart.nears (length course.calls) course.chart.nears) }
    {
        let mut chart = chart;
        let ways = ways_over(alloc, net, settings, followers, request, &mut chart)?;
        let Ways {
            starts,
            calls,
            numbers,
            rests,
        } = ways;
        Ok(ChartCourse {
            chart,
            starts,
            calls,
            numbers,
            rests,
        })
    }

    /// Its chart, to be kept for the next request.
    pub fn into_chart(self) -> TrainChart
        ensures { result ≡ self.chart }
    {
        self.chart
    }

    // The spots from which a way leads to its last call, at the destination.
    fn lasts(&self) -> &List<usize>
        requires called { 0 < length self.now.calls }
        requires nears { All (IsNearKept self.now.chart.chart.spots) self.now.chart.nears }
        requires kept { AreNearAt self.now.chart.nears self.now.calls self.now.numbers.items }
        ensures { result.now ≡ spots_before (last_call self.now.calls).blocks
            self.now.chart.chart.spots }
    {
        let number = last_number(self);
        self.chart.nears.lasts_at(number)
    }

    /// The plan of the course.
    pub(crate) fn plan<'a>(&'a self, settings: &Settings) -> LentPlan<'a>
        requires leads { LeadOnChart self.now.chart.chart.spots self.now.starts }
        requires numbers { HasNumbers self.now.chart.chart.spots self.now.calls }
        ensures { result ≡ plan_along settings.now self.now }
    {
        LentPlan::charted(
            &self.chart.chart,
            &self.starts,
            &self.calls,
            settings.horizon,
        )
    }
}

// Where it stands how near the train is to the last call of a course.
fn last_number(course: &ChartCourse) -> usize
    requires called { 0 < length course.now.calls }
    requires kept { AreNearAt course.now.chart.nears course.now.calls course.now.numbers.items }
    ensures { IsNearAt course.now.chart.nears (last_call course.now.calls).blocks result }
{
    let numbers = course.numbers.as_slice();
    numbers[numbers.len() - 1]
}

// What a course has beside its chart.
#[derive(Drop)]
struct Ways {
    starts: List<ChartWay>,
    calls: List<ChartCall>,
    numbers: Vec<usize>,
    rests: List<Ahead>,
}

// What the course of a request has beside the chart of its train; the chart keeps how near the
// train is to the calls.
fn ways_over(
    alloc: Global,
    net: &Network,
    settings: &Settings,
    followers: &Followers,
    request: &Request,
    chart: &mut TrainChart,
) -> Result<Ways, NoMemory>
    requires followers { AreFollowers net.now followers.now }
    requires request { IsRequestWithinLimits request.now }
    requires chart { IsChartOf net.now settings.now request.now.train chart.old }
    ensures train { chart.new.train ≡ chart.old.train }
    ensures spots { chart.new.spots ≡ chart.old.spots }
    ensures chart { chart.new.chart ≡ chart.old.chart }
    ensures kept { All (IsNearKept chart.old.chart.spots) chart.new.nears }
    ensures on { IfOk result (λ ways.
        GoOn chart.old.nears (length ways.calls) chart.new.nears) }
    ensures calls { IfOk result (λ ways. AreCalls net.now request.now ways.calls) }
    ensures starts { IfOk result (λ ways.
        AreStarts net.now settings.now request.now chart.new.spots.spots ways.starts) }
    ensures numbers { IfOk result (λ ways.
        AreNearAt chart.new.nears ways.calls ways.numbers.items) }
    ensures rests { IfOk result (λ ways. AreRests chart.new.chart.spots ways.calls
        (map (near_kept chart.new.nears) ways.numbers.items) ways.rests) }
{
    let calls = calls_of(alloc, net, followers, request)?;
    let numbers = chart.numbers_of_calls(alloc, calls.as_slice())?;
    let begun = starts_with_rests(
        alloc, net, settings, followers, request, chart, &calls, &numbers,
    )?;
    let (starts, rests) = begun;
    Ok(Ways {
        starts,
        calls,
        numbers,
        rests,
    })
}

// The ways with which a path of the request begins, and what is left behind each call.
fn starts_with_rests(
    alloc: Global,
    net: &Network,
    settings: &Settings,
    followers: &Followers,
    request: &Request,
    chart: &TrainChart,
    calls: &List<ChartCall>,
    numbers: &[usize],
) -> Result<(List<ChartWay>, List<Ahead>), NoMemory>
    requires followers { AreFollowers net.now followers.now }
    requires chart { IsChartOf net.now settings.now request.now.train chart.now }
    requires dwells { HaveShortDwells calls.now }
    requires kept { All (IsNearKept chart.now.chart.spots) chart.now.nears }
    requires numbers { AreNearAt chart.now.nears calls.now numbers.now }
    ensures starts { IfOk result (λ begun.
        AreStarts net.now settings.now request.now chart.now.spots.spots begun.0) }
    ensures rests { IfOk result (λ begun. AreRests chart.now.chart.spots calls.now
        (map (near_kept chart.now.nears) numbers.now) begun.1) }
{
    let starts = starts_of(alloc, net, settings, followers, request, chart)?;
    let rests = rests_by_calls(alloc, chart, calls, numbers)?;
    Ok((starts, rests))
}

// What is left behind each call of a plan over a chart, by how near the train is to them.
fn rests_by_calls(
    alloc: Global,
    chart: &TrainChart,
    calls: &List<ChartCall>,
    numbers: &[usize],
) -> Result<List<Ahead>, NoMemory>
    requires dwells { HaveShortDwells calls.now }
    requires kept { All (IsNearKept chart.now.chart.spots) chart.now.nears }
    requires numbers { AreNearAt chart.now.nears calls.now numbers.now }
    ensures { IfOk result (AreRests chart.now.chart.spots calls.now
        (map (near_kept chart.now.nears) numbers.now)) }
{
    let nears = chart.nears.nears_at(alloc, numbers)?;
    let rests = rests_of(alloc, &chart.chart, calls, nears.as_slice())?;
    Ok(rests)
}

// The ways with which a path of the request begins.
fn starts_of(
    alloc: Global,
    net: &Network,
    settings: &Settings,
    followers: &Followers,
    request: &Request,
    chart: &TrainChart,
) -> Result<List<ChartWay>, NoMemory>
    requires followers { AreFollowers net.now followers.now }
    requires chart { IsChartOf net.now settings.now request.now.train chart.now }
    ensures { IfOk result
        (AreStarts net.now settings.now request.now chart.now.spots.spots) }
{
    let start = Place::start(alloc);
    let mut starts = List::new(alloc);
    for block in followers.serving(request.origin) {
        add_starts(alloc, net, settings, chart, &start, *block, &mut starts)?;
    }
    Ok(starts)
}

// Puts both ways from the start onto a block behind the others.
fn add_starts(
    alloc: Global,
    net: &Network,
    settings: &Settings,
    chart: &TrainChart,
    start: &Place,
    block: u32,
    starts: &mut List<ChartWay>,
) -> Result<(), NoMemory>
    requires chart { IsChartOf net.now settings.now chart.now.train chart.now }
    requires start { start.now ≡ start_place }
    requires block { IsStride net.now start_place (record { block = block; exit = Rolling }) }
    ensures { OnOk result
        (AddsStarts net.now settings.now chart.now block starts.old starts.new) }
{
    add_start(
        alloc,
        net,
        settings,
        chart,
        start,
        block,
        Edge::Rolling,
        starts,
    )?;
    add_start(
        alloc,
        net,
        settings,
        chart,
        start,
        block,
        Edge::Still,
        starts,
    )?;
    Ok(())
}

fn add_start(
    alloc: Global,
    net: &Network,
    settings: &Settings,
    chart: &TrainChart,
    start: &Place,
    block: u32,
    exit: Edge,
    starts: &mut List<ChartWay>,
) -> Result<(), NoMemory>
    requires chart { IsChartOf net.now settings.now chart.now.train chart.now }
    requires start { start.now ≡ start_place }
    requires step { IsStride net.now start_place (record { block = block; exit = exit }) }
    ensures { OnOk result (AddsStart net.now settings.now chart.now
        (record { block = block; exit = exit }) starts.old starts.new) }
{
    sound_networks_are_run();
    let step = Step { block, exit };
    let way = chart.spots.start_way(alloc, net, &chart.train, step)?;
    starts.push(charted_way(alloc, net, settings, &chart.train, start, &way)?)?;
    Ok(())
}

// What is asked at each count of stops made.
fn calls_of(
    alloc: Global,
    net: &Network,
    followers: &Followers,
    request: &Request,
) -> Result<List<ChartCall>, NoMemory>
    requires followers { AreFollowers net.now followers.now }
    requires stops { length request.now.stops ≤ MAX_STOPS }
    ensures { IfOk result (AreCalls net.now request.now) }
{
    let mut calls = List::new(alloc);
    for made in 0..request.stops.len() + 1 {
        calls.push(call_of(alloc, net, followers, request, made as u32)?)?;
    }
    Ok(calls)
}

fn call_of(
    alloc: Global,
    net: &Network,
    followers: &Followers,
    request: &Request,
    made: u32,
) -> Result<ChartCall, NoMemory>
    requires followers { AreFollowers net.now followers.now }
    ensures { IfOk result (IsCallAt net.now request.now made) }
{
    let blocks = Vec::from_slice(alloc, followers.serving(stop_ahead(request, made)))?;
    Ok(ChartCall {
        blocks: List::from_vec(blocks),
        dwell: dwell_after(request, made, true),
    })
}

/// The path of a request that leaves last as early as any that can be granted beside what the book
/// holds, or None where none can, found by the request's course over the chart of its train. Where
/// no path can end at the destination nothing is searched. `NoMemory` alone is refused.
pub fn find_over(
    alloc: Global,
    net: &Network,
    settings: &Settings,
    book: &Occupations,
    request: &Request,
    course: &ChartCourse,
) -> Result<Option<Path>, NoMemory>
    requires zones { length book.now ≡ net.now.zones }
    requires request { IsRequestWithinLimits request.now }
    requires course { IsChartCourse net.now settings.now request.now course.now }
    ensures { IfOk result
        (IsFinding net.now settings.now (claims_held book.now) request.now) }
{
    if is_shut(net, settings, book, request, course) {
        return Ok(None);
    }
    search_over(alloc, net, settings, book, request, course)
}

// Whether each way to the destination is taken whenever a train of the request could come by it.
fn is_shut(
    net: &Network,
    settings: &Settings,
    book: &Occupations,
    request: &Request,
    course: &ChartCourse,
) -> bool
    requires zones { length book.now ≡ net.now.zones }
    requires request { IsRequestWithinLimits request.now }
    requires course { IsChartCourse net.now settings.now request.now course.now }
    ensures { IsTrue result
        → ¬ IsPossible net.now settings.now (claims_held book.now) request.now }
{
    planned_paths_are_granted();
    granted_paths_are_planned();
    charts_are_planned();
    claims_have_ticks(book);
    let lasts = course.lasts();
    ends_are_shut(
        &course.chart.chart,
        &course.starts,
        &course.calls,
        lasts,
        book,
        &trip(request),
        settings.horizon,
    )
}

// The same as `find_over`, by a search in any case.
fn search_over(
    alloc: Global,
    net: &Network,
    settings: &Settings,
    book: &Occupations,
    request: &Request,
    course: &ChartCourse,
) -> Result<Option<Path>, NoMemory>
    requires zones { length book.now ≡ net.now.zones }
    requires request { IsRequestWithinLimits request.now }
    requires course { IsChartCourse net.now settings.now request.now course.now }
    ensures { IfOk result
        (IsFinding net.now settings.now (claims_held book.now) request.now) }
{
    planned_paths_are_granted();
    granted_paths_are_planned();
    charts_are_planned();
    claims_have_ticks(book);
    let nears = course.chart.nears.nears_at(alloc, &course.numbers)?;
    let ahead = Aheads::summed(
        &course.chart.chart,
        &course.calls,
        nears.as_slice(),
        &course.rests,
    );
    let plan = course.plan(settings);
    match find_lent(alloc, &plan, book, &trip(request), &ahead)? {
        Finding::Found(steps) => {
            let path = told_over(alloc, settings, request, course, &plan, &steps)?;
            Ok(Some(path))
        }
        Finding::NoPath => Ok(None),
    }
}

// The run of a step that is a way.
fn run_of_way(way: &ChartWay, step: &PlannedStep) -> Run
    requires begins { pos 0 ≤ℤ step.now.enter }
    requires ends { (step.now.enter +ℤ way.now.run) ≤ℤ LATEST }
    ensures block { result.block ≡ way.now.block }
    ensures enter { result.enter ≡ step.now.enter }
    ensures leave { result.leave ≡ step.now.enter +ℤ way.now.run }
    ensures stops { result.stops ≡ way.now.halts }
{
    Run {
        block: way.block,
        enter: step.enter,
        leave: step.enter + way.run,
        stops: way.halts,
    }
}

/// The path that the steps of a planned path make.
pub(crate) fn told_over(
    alloc: Global,
    settings: &Settings,
    request: &Request,
    course: &ChartCourse,
    plan: &LentPlan,
    steps: &List<PlannedStep>,
) -> Result<Path, NoMemory>
    requires plan { plan.now ≡ plan_along settings.now course.now }
    requires numbers { HasNumbers course.now.chart.chart.spots course.now.calls }
    requires horizon { plan.now.horizon ≤ℤ LATEST }
    requires steps { AreSteps plan.now (To 0) steps.now }
    ensures { IfOk result (λ path.
        path ≡ path_in request.now (listed_along course.now) plan.now steps.now) }
{
    let mut runs = List::new(alloc);
    let mut target = Target::Place(0);
    for step in steps.as_slice() {
        let Target::Place(number) = target else {
            unreachable!()
        };
        let chart = &course.chart.chart;
        let way = way_on_chart(chart, &course.starts, &course.calls, number, step.number);
        runs.push(run_of_way(way, step))?;
        target = plan.target(number, step.number);
    }
    Ok(Path {
        train: request.train.copy(alloc)?,
        runs,
    })
}
