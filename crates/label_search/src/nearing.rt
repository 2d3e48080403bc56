//! How near a train is to its next call from each spot of a chart, which is the same for all
//! requests with that call, and what is ahead by that at a place of a request over the chart.

ghost use Rattle.std.specs.Prelude.{◌≡◌, ℕ, ◌+◌, ◌<◌, pos, ◌+ℤ◌, ◌≤ℤ◌, ◌++◌, length, map};
ghost use Rattle.std.specs.Prelude.{replicate, false, true, if◌then◌else◌};
ghost use Rattle.std.specs.Prelude.{All, IfOk, IsTrue, OnOk};
ghost use Rattle.label_search.specs.Charts.{call_at, spot_at};
ghost use Rattle.label_search.specs.Limits.{IsAhead, ahead_at as place_ahead};
ghost use Rattle.label_search.specs.Nearing.{
  AreNears,
  AreRests,
  AreRestsFrom,
  HaveShortDwells,
  HaveShortRuns,
  IsNearAlong,
  IsNearTo,
  aheads_over,
  behind_calls,
  behind_ways,
  is_call as calls_there,
  near_at,
  stay_ahead,
  sum_ahead,
};
ghost use Rattle.label_search.specs.Plans.{IsShort};

use crate::charts::{Chart, ChartCall, ChartSpot, ChartWay};
use crate::limits::{Ahead, ahead_at};
use crate::roads::Roads;
use crate::stays::stay_of;
use no_memory::NoMemory;
use rail_types::{FAR_TICK, List};
use std::alloc::Global;
use std::marker::Model;

// Ticks from a spot, in 4 bytes. Contracts see them as what is ahead there.
#[derive(Debug, Drop)]
pub(crate) struct ShortTicks {
    ticks: u32,
}

impl Model for ShortTicks {
    ghost use Rattle.std.specs.Prelude.{pos};
    ghost use Rattle.label_search.specs.declared.limits.Ahead.{Ahead as ahead_type};

    ghost Value = { ahead_type };

    ghost view = { λ a. record { ticks = pos a.ticks } };
}

impl ShortTicks {
    fn new(ticks: u32) -> ShortTicks
        ensures { IsAhead result }
    {
        ShortTicks { ticks }
    }

    // The ticks, to be added to others.
    fn ahead(&self) -> Ahead
        ensures { result ≡ self.now }
    {
        Ahead {
            ticks: i64::from(self.ticks),
        }
    }
}

/// How near a train is to its next call: ticks from each spot that no train falls short of, 0 where
/// the list has none, and the spots behind its calls.
#[derive(Debug, Drop)]
pub struct Near {
    pub(crate) ticks: List<ShortTicks>,
    pub(crate) behind: List<u32>,
}

/// How near a train is that is called at the ends of these blocks. The ticks are found by the roads
/// of the chart without proof, and tested.
pub fn near_to(
    alloc: Global,
    chart: &Chart,
    roads: &Roads,
    blocks: &[u32],
) -> Result<Near, NoMemory>
    requires runs { HaveShortRuns chart.now.spots }
    ensures { IfOk result (IsNearTo chart.now.spots blocks.now) }
{
    let behind = spots_behind(alloc, chart.spots.as_slice(), blocks)?;
    let ticks = ticks_along(alloc, chart, roads, blocks)?;
    Ok(Near { ticks, behind })
}

// The ticks from each spot, or none where the test fails.
fn ticks_along(
    alloc: Global,
    chart: &Chart,
    roads: &Roads,
    blocks: &[u32],
) -> Result<List<ShortTicks>, NoMemory>
    requires runs { HaveShortRuns chart.now.spots }
    ensures ahead { IfOk result (All IsAhead) }
    ensures near { IfOk result (λ ticks. (number : ℕ) → number < length chart.now.spots
        → All (IsNearAlong blocks.now ticks number) (spot_at chart.now.spots number).ways) }
{
    let found = roads.ticks_to(alloc, blocks)?;
    let ticks = shorten(alloc, found.as_slice())?;
    if are_near(chart, blocks, &ticks) {
        return Ok(ticks);
    }
    Ok(List::new(alloc))
}

// Ticks in 4 bytes each.
fn shorten(alloc: Global, ticks: &[Ahead]) -> Result<List<ShortTicks>, NoMemory>
    ensures { IfOk result (All IsAhead) }
{
    let mut short = Vec::with_capacity(alloc, ticks.len())?;
    for one in ticks {
        short.push(ShortTicks::new(short_of(one)))?;
    }
    Ok(List::from_vec(short))
}

// The ticks, or the most that fit in 4 bytes: no train falls short of fewer either.
fn short_of(ahead: &Ahead) -> u32 {
    u32::try_from(ahead.ticks).unwrap_or(u32::MAX)
}

// Whether the train halts at the end of a way because it is called there.
pub(crate) fn is_call(blocks: &[u32], way: &ChartWay) -> bool
    ensures { result ≡ calls_there blocks.now way.now }
{
    way.halts && blocks.contains(&way.block)
}

fn spots_behind(alloc: Global, spots: &[ChartSpot], blocks: &[u32]) -> Result<List<u32>, NoMemory>
    ensures { IfOk result (λ behind. behind ≡ behind_calls blocks.now spots.now) }
{
    let mut behind = List::new(alloc);
    for spot in spots {
        push_behind(blocks, spot.ways.as_slice(), &mut behind)?;
    }
    Ok(behind)
}

// Puts the spots that the calls among ways lead to behind the others.
fn push_behind(blocks: &[u32], ways: &[ChartWay], behind: &mut List<u32>) -> Result<(), NoMemory>
    ensures { OnOk result (behind.new ≡ behind.old ++ behind_ways blocks.now ways.now) }
{
    for way in ways {
        if is_call(blocks, way) {
            behind.push(way.next)?;
        }
    }
    Ok(())
}

fn are_near(chart: &Chart, blocks: &[u32], ticks: &List<ShortTicks>) -> bool
    requires runs { HaveShortRuns chart.now.spots }
    requires ticks { All IsAhead ticks.now }
    ensures { IsTrue result → (number : ℕ) → number < length chart.now.spots
        → All (IsNearAlong blocks.now ticks.now number) (spot_at chart.now.spots number).ways }
{
    for number in 0..chart.spots.len() {
        let spot = spot_of(chart, number);
        if !are_near_from(spot.ways.as_slice(), blocks, ticks, number) {
            return false;
        }
    }
    true
}

fn spot_of(chart: &Chart, number: usize) -> &ChartSpot
    requires runs { HaveShortRuns chart.now.spots }
    requires number { number < length chart.now.spots }
    ensures spot { result.now ≡ spot_at chart.now.spots number }
    ensures runs { All (λ way. IsShort way.run) result.now.ways }
{
    let spots = chart.spots.as_slice();
    &spots[number]
}

fn are_near_from(ways: &[ChartWay], blocks: &[u32], ticks: &List<ShortTicks>, number: usize) -> bool
    requires runs { All (λ way. IsShort way.run) ways.now }
    requires ticks { All IsAhead ticks.now }
    ensures { IsTrue result → All (IsNearAlong blocks.now ticks.now number) ways.now }
{
    for way in ways {
        if !is_near_along(way, blocks, ticks, number) {
            return false;
        }
    }
    true
}

fn is_near_along(way: &ChartWay, blocks: &[u32], ticks: &List<ShortTicks>, number: usize) -> bool
    requires run { IsShort way.now.run }
    requires ticks { All IsAhead ticks.now }
    ensures { IsTrue result → IsNearAlong blocks.now ticks.now number way.now }
{
    let here = ticks_at(ticks, number);
    let there = ticks_at(ticks, way.next as usize);
    rolls_no_nearer(way, &here, &there) && calls_no_nearer(blocks, way, &here)
}

// The ticks from the spot of a number, 0 where the list has none.
fn ticks_at(ticks: &List<ShortTicks>, number: usize) -> Ahead
    requires { All IsAhead ticks.now }
    ensures value { result ≡ place_ahead ticks.now number }
    ensures ahead { IsAhead result }
{
    match ticks.get(number) {
        Some(one) => one.ahead(),
        None => Ahead { ticks: 0 },
    }
}

// Whether a train that rolls on comes no nearer than by the ticks that it takes.
fn rolls_no_nearer(way: &ChartWay, here: &Ahead, there: &Ahead) -> bool
    requires run { IsShort way.now.run }
    requires there { IsAhead there.now }
    ensures { IsTrue result → way.now.halts ≡ false
        → here.now.ticks ≤ℤ (way.now.run +ℤ there.now.ticks) }
{
    way.halts || here.ticks <= way.run + there.ticks
}

// Whether a train that comes to its call was no nearer than by the ticks that it takes.
fn calls_no_nearer(blocks: &[u32], way: &ChartWay, here: &Ahead) -> bool
    ensures { IsTrue result → calls_there blocks.now way.now ≡ true
        → here.now.ticks ≤ℤ way.now.run }
{
    !is_call(blocks, way) || here.ticks <= way.run
}

// What is ahead at the place of a number over a chart, nothing where there is none: the dwell
// where the train stands, the way to its next call, and what is left behind that.
pub(crate) fn sum_of_place(
    chart: &Chart,
    calls: &List<ChartCall>,
    nears: &[&Near],
    rests: &List<Ahead>,
    place: usize,
) -> Ahead
    requires dwells { HaveShortDwells calls.now }
    requires nears { AreNears chart.now.spots calls.now (map (λ near. near.now) nears.now) }
    requires rests { All IsAhead rests.now }
    ensures value { result ≡ place_ahead (aheads_over chart.now.spots calls.now
        (map (λ near. near.now) nears.now) rests.now) place }
    ensures ahead { IsAhead result }
{
    if place == 0 {
        return Ahead { ticks: 0 };
    }
    let levels = calls.len();
    if levels == 0 {
        return Ahead { ticks: 0 };
    }
    let stay = stay_of(place - 1, levels);
    if stay.spot >= chart.spots.len() {
        return Ahead { ticks: 0 };
    }
    sum_of_stay(chart, calls, nears, rests, stay.spot, stay.made)
}

// What is ahead at a spot where so many calls are made.
fn sum_of_stay(
    chart: &Chart,
    calls: &List<ChartCall>,
    nears: &[&Near],
    rests: &List<Ahead>,
    spot: usize,
    made: usize,
) -> Ahead
    requires dwells { HaveShortDwells calls.now }
    requires nears { AreNears chart.now.spots calls.now (map (λ near. near.now) nears.now) }
    requires rests { All IsAhead rests.now }
    requires made { made < length calls.now }
    ensures ahead { IsAhead result }
    ensures sum { result.ticks ≡ stay_ahead chart.now.spots calls.now
        (map (λ near. near.now) nears.now) rests.now spot made }
{
    let call = call_of(calls, made);
    let near = near_of(nears, made);
    let rest = ahead_at(rests, made);
    // Where nothing is waited, whether the train stands is not looked at.
    if call.dwell == 0 {
        return sum_of(false, call, near, &rest, spot);
    }
    sum_of(stands_at(chart, spot), call, near, &rest, spot)
}

/// What is left behind each call, by how near the train is to each of them.
pub fn rests_of(
    alloc: Global,
    chart: &Chart,
    calls: &List<ChartCall>,
    nears: &[&Near],
) -> Result<List<Ahead>, NoMemory>
    requires dwells { HaveShortDwells calls.now }
    requires nears { AreNears chart.now.spots calls.now (map (λ near. near.now) nears.now) }
    ensures { IfOk result
        (AreRests chart.now.spots calls.now (map (λ near. near.now) nears.now)) }
{
    let mut rests = no_rests(alloc, calls.len())?;
    let mut made = calls.len().saturating_sub(1);
    while made > 0 {
        made -= 1;
        put_rest(chart, calls, nears, &mut rests, made);
    }
    Ok(List::from_vec(rests))
}

// So many times nothing.
fn no_rests(alloc: Global, count: usize) -> Result<Vec<Ahead>, NoMemory>
    ensures { IfOk result (λ rests. rests.items ≡ replicate count (record { ticks = pos 0 })) }
{
    let rests = vec![in alloc; Ahead { ticks: 0 }; count]?;
    Ok(rests)
}

// Puts in what is left behind a call, by what is left behind the next.
fn put_rest(
    chart: &Chart,
    calls: &List<ChartCall>,
    nears: &[&Near],
    rests: &mut Vec<Ahead>,
    made: usize,
)
    requires dwells { HaveShortDwells calls.now }
    requires nears { AreNears chart.now.spots calls.now (map (λ near. near.now) nears.now) }
    requires made { made + 1 < length calls.now }
    requires rests { AreRestsFrom chart.now.spots calls.now (map (λ near. near.now) nears.now)
        (made + 1) rests.old.items }
    ensures { AreRestsFrom chart.now.spots calls.now (map (λ near. near.now) nears.now) made
        rests.new.items }
{
    let next = made + 1;
    let rest = rests[next];
    let behind = near_of(nears, made).behind.as_slice();
    let least = least_ahead(
        chart,
        behind,
        call_of(calls, next),
        near_of(nears, next),
        &rest,
    );
    rests[made] = least;
}

// The least that is ahead at any of these spots.
fn least_ahead(chart: &Chart, behind: &[u32], call: &ChartCall, near: &Near, rest: &Ahead) -> Ahead
    requires dwell { IsShort call.now.dwell }
    requires near { All IsAhead near.now.ticks }
    requires rest { IsAhead rest.now }
    ensures ahead { IsAhead result }
    ensures least { All (λ spot. result.ticks ≤ℤ sum_ahead
        (spot_at chart.now.spots spot).standing call.now near.now rest.now spot) behind.now }
{
    let mut least = Ahead { ticks: FAR_TICK };
    for number in behind {
        let spot = *number as usize;
        let ahead = sum_of(stands_at(chart, spot), call, near, rest, spot);
        least = lesser(&least, &ahead);
    }
    least
}

fn lesser(one: &Ahead, other: &Ahead) -> Ahead
    requires one { IsAhead one.now }
    requires other { IsAhead other.now }
    ensures ahead { IsAhead result }
    ensures one { result.ticks ≤ℤ one.now.ticks }
    ensures other { result.ticks ≤ℤ other.now.ticks }
{
    if other.ticks < one.ticks {
        *other
    } else {
        *one
    }
}

// What is ahead at a spot, where the train stands or not.
fn sum_of(standing: bool, call: &ChartCall, near: &Near, rest: &Ahead, spot: usize) -> Ahead
    requires dwell { IsShort call.now.dwell }
    requires near { All IsAhead near.now.ticks }
    requires rest { IsAhead rest.now }
    ensures ahead { IsAhead result }
    ensures sum { result.ticks ≡ sum_ahead standing call.now near.now rest.now spot }
{
    let wait = wait_of(standing, call);
    let way = ticks_at(&near.ticks, spot);
    Ahead {
        ticks: (wait.ticks + way.ticks + rest.ticks).min(FAR_TICK),
    }
}

fn wait_of(standing: bool, call: &ChartCall) -> Ahead
    requires { IsShort call.now.dwell }
    ensures wait { result.ticks ≡ (if standing then call.now.dwell else pos 0) }
    ensures short { IsShort result.ticks }
{
    Ahead {
        ticks: if standing { call.dwell } else { 0 },
    }
}

// Whether the train stands at the spot of a number.
fn stands_at(chart: &Chart, spot: usize) -> bool
    ensures { result ≡ (spot_at chart.now.spots spot).standing }
{
    match chart.spots.get(spot) {
        Some(one) => one.standing,
        None => false,
    }
}

fn call_of(calls: &List<ChartCall>, made: usize) -> &ChartCall
    requires dwells { HaveShortDwells calls.now }
    requires made { made < length calls.now }
    ensures call { result.now ≡ call_at calls.now made }
    ensures dwell { IsShort result.now.dwell }
{
    let listed = calls.as_slice();
    &listed[made]
}

fn near_of<'a>(nears: &[&'a Near], made: usize) -> &'a Near
    requires { made < length nears.now }
    ensures { result.now ≡ near_at (map (λ near. near.now) nears.now) made }
{
    nears[made]
}
