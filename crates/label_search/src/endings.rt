//! Where a path over a chart can end: where no way to its last call is free at any tick at which a
//! train could take it, there is no path to look for.

ghost use Rattle.std.specs.Prelude.{◌≡◌, ◌<◌, ◌++◌, ◌∷◌, [], pos, ◌-ℤ◌, if◌then◌else◌, length};
ghost use Rattle.std.specs.Prelude.{All, IfOk, IsTrue, OnOk};
ghost use Rattle.std.specs.Int.{int_max, int_min};
ghost use Rattle.free_windows.specs.Starts.{IsPiece};
ghost use Rattle.rail_types.specs.Limits.{IsNear};
ghost use Rattle.label_search.specs.Charts.{plan_over, spot_at};
ghost use Rattle.label_search.specs.Endings.{
  AreShut,
  AreShutFrom,
  CanEnd,
  CanEndFrom,
  IsShut,
  IsShutWay,
  ending_of,
  has_call as calls_among,
  last_call,
  spots_before as spots_there,
};
ghost use Rattle.label_search.specs.Paths.{Possible};
ghost use Rattle.label_search.specs.Plans.{IsPlan, IsShort};

use crate::charts::{Chart, ChartCall, ChartWay};
use crate::nearing::is_call;
use crate::plans::Trip;
use free_windows::next_start;
use no_memory::NoMemory;
use occupation_book::Occupations;
use rail_types::{List, Window};
use std::alloc::Global;

/// The spots of a chart from which a way leads to a call at the end of one of these blocks.
pub fn spots_before(alloc: Global, chart: &Chart, blocks: &[u32]) -> Result<List<usize>, NoMemory>
    ensures { IfOk result (λ before. before ≡ spots_there blocks.now chart.now.spots) }
{
    let mut before = List::new(alloc);
    for number in 0..chart.spots.len() {
        push_before(chart, blocks, number, &mut before)?;
    }
    Ok(before)
}

// Puts a spot behind the others where a way from there leads to the call.
fn push_before(
    chart: &Chart,
    blocks: &[u32],
    number: usize,
    before: &mut List<usize>,
) -> Result<(), NoMemory>
    requires { number < length chart.now.spots }
    ensures { OnOk result (before.new ≡ before.old
        ++ (if calls_among blocks.now (spot_at chart.now.spots number).ways
        then number ∷ [] else [])) }
{
    if !has_call(blocks, ways_from(chart, number)) {
        return Ok(());
    }
    before.push(number)?;
    Ok(())
}

fn has_call(blocks: &[u32], ways: &[ChartWay]) -> bool
    ensures { result ≡ calls_among blocks.now ways.now }
{
    ways.iter().any(|way| is_call(blocks, way))
}

fn ways_from(chart: &Chart, number: usize) -> &[ChartWay]
    requires { number < length chart.now.spots }
    ensures { result.now ≡ (spot_at chart.now.spots number).ways }
{
    let spots = chart.spots.as_slice();
    spots[number].ways.as_slice()
}

/// Whether no path of a trip can end: each way to the last call is looked at, from the spots that
/// have one, and from the start where there is no other call. A few searches in the book tell so,
/// where a search for a path looks at all that can be reached.
pub fn ends_are_shut(
    chart: &Chart,
    starts: &List<ChartWay>,
    calls: &List<ChartCall>,
    lasts: &List<usize>,
    book: &Occupations,
    trip: &Trip,
    horizon: u32,
) -> bool
    requires plan { IsPlan (plan_over chart.now.spots starts.now calls.now (pos horizon)) book.now }
    requires called { 0 < length calls.now }
    requires lasts { lasts.now ≡ spots_there (last_call calls.now).blocks chart.now.spots }
    requires arrive { IsNear trip.now.arrive.from × IsNear trip.now.arrive.to }
    ensures { IsTrue result → ¬ Possible
        (plan_over chart.now.spots starts.now calls.now (pos horizon)) trip.now book.now }
{
    let blocks = last_of(calls).blocks.as_slice();
    let levels = calls.len();
    if !starts_are_shut(starts.as_slice(), levels, blocks, book, trip, horizon) {
        return false;
    }
    spots_are_shut(chart, lasts.as_slice(), blocks, book, trip, horizon)
}

fn last_of(calls: &List<ChartCall>) -> &ChartCall
    requires { 0 < length calls.now }
    ensures { result.now ≡ last_call calls.now }
{
    let listed = calls.as_slice();
    &listed[listed.len() - 1]
}

// Whether the ways from the start are shut, where one call alone is asked for.
fn starts_are_shut(
    starts: &[ChartWay],
    levels: usize,
    blocks: &[u32],
    book: &Occupations,
    trip: &Trip,
    horizon: u32,
) -> bool
    requires ways { levels ≡ 1 → All (CanEnd blocks.now book.now) starts.now }
    requires arrive { IsNear trip.now.arrive.from × IsNear trip.now.arrive.to }
    ensures { IsTrue result → levels ≡ 1
        → AreShut blocks.now book.now trip.now (pos horizon) starts.now }
{
    if levels != 1 {
        return true;
    }
    are_shut(starts, blocks, book, trip, horizon)
}

// Whether the ways from each of these spots are shut.
fn spots_are_shut(
    chart: &Chart,
    numbers: &[usize],
    blocks: &[u32],
    book: &Occupations,
    trip: &Trip,
    horizon: u32,
) -> bool
    requires spots { All (CanEndFrom chart.now.spots blocks.now book.now) numbers.now }
    requires arrive { IsNear trip.now.arrive.from × IsNear trip.now.arrive.to }
    ensures { IsTrue result → All (AreShutFrom chart.now.spots blocks.now book.now trip.now
        (pos horizon)) numbers.now }
{
    for number in numbers {
        if !spot_is_shut(chart, *number, blocks, book, trip, horizon) {
            return false;
        }
    }
    true
}

fn spot_is_shut(
    chart: &Chart,
    number: usize,
    blocks: &[u32],
    book: &Occupations,
    trip: &Trip,
    horizon: u32,
) -> bool
    requires spot { CanEndFrom chart.now.spots blocks.now book.now number }
    requires arrive { IsNear trip.now.arrive.from × IsNear trip.now.arrive.to }
    ensures { IsTrue result
        → AreShutFrom chart.now.spots blocks.now book.now trip.now (pos horizon) number }
{
    are_shut(ways_from(chart, number), blocks, book, trip, horizon)
}

fn are_shut(
    ways: &[ChartWay],
    blocks: &[u32],
    book: &Occupations,
    trip: &Trip,
    horizon: u32,
) -> bool
    requires ways { All (CanEnd blocks.now book.now) ways.now }
    requires arrive { IsNear trip.now.arrive.from × IsNear trip.now.arrive.to }
    ensures { IsTrue result → AreShut blocks.now book.now trip.now (pos horizon) ways.now }
{
    for way in ways {
        if !is_shut(way, blocks, book, trip, horizon) {
            return false;
        }
    }
    true
}

fn is_shut(way: &ChartWay, blocks: &[u32], book: &Occupations, trip: &Trip, horizon: u32) -> bool
    requires way { CanEnd blocks.now book.now way.now }
    requires arrive { IsNear trip.now.arrive.from × IsNear trip.now.arrive.to }
    ensures { IsTrue result → IsShutWay blocks.now book.now trip.now (pos horizon) way.now }
{
    if !is_call(blocks, way) {
        return true;
    }
    is_never_free(way, book, trip, horizon)
}

// Whether a way is free at no tick at which a path could end with it.
fn is_never_free(way: &ChartWay, book: &Occupations, trip: &Trip, horizon: u32) -> bool
    requires run { IsShort way.now.run }
    requires pieces { All (IsPiece (length book.now)) way.now.ending }
    requires arrive { IsNear trip.now.arrive.from × IsNear trip.now.arrive.to }
    ensures { IsTrue result → IsShut book.now trip.now (pos horizon) (ending_of way.now) }
{
    let going = by_the_horizon(way, trip, horizon);
    let enters = arriving(&going, way, trip);
    let Some(_first) = next_start(way.ending.as_slice(), book, &enters) else {
        return true;
    };
    false
}

// The ticks from the first departure on at which a way may be entered that leaves by the horizon.
fn by_the_horizon(way: &ChartWay, trip: &Trip, horizon: u32) -> Window
    requires { IsShort way.now.run }
    ensures from { result.from ≡ int_max trip.now.depart.from (pos 0) }
    ensures to { result.to ≡ pos horizon -ℤ way.now.run }
{
    Window {
        from: trip.depart.from.max(0),
        to: i64::from(horizon) - way.run,
    }
}

// Those of these ticks at which a way leaves in the window of arrival.
fn arriving(going: &Window, way: &ChartWay, trip: &Trip) -> Window
    requires run { IsShort way.now.run }
    requires arrive { IsNear trip.now.arrive.from × IsNear trip.now.arrive.to }
    ensures from { result.from ≡ int_max going.now.from (trip.now.arrive.from -ℤ way.now.run) }
    ensures to { result.to ≡ int_min going.now.to (trip.now.arrive.to -ℤ way.now.run) }
{
    Window {
        from: going.from.max(trip.arrive.from - way.run),
        to: going.to.min(trip.arrive.to - way.run),
    }
}
