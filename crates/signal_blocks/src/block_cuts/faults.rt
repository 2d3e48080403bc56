//! What makes the blocks of a railway no network: blocks without length, and more
//! of something than its limit.

ghost use Rattle.std.specs.Prelude.{◌≡◌, ◌<◌, ◌^◌, length, IfOk, None};
ghost use Rattle.std.specs.List.{All, count_by};
ghost use Rattle.signal_blocks.specs.Faults.{lies_at, length_from, empty_behind, empty_in};
ghost use Rattle.signal_blocks.specs.Faults.{empty_fault, long_behind, long_in, long_fault};
ghost use Rattle.signal_blocks.specs.Faults.{count_blocks, count_cells, cell_count, limit_over};
ghost use Rattle.signal_blocks.specs.Faults.{told};
ghost use Rattle.signal_blocks.specs.Faults.{count_fault, railway_fault};
ghost use Rattle.signal_blocks.specs.Cuts.{is_some};

use crate::block_cuts::cuts::{block_count, cut_places, metres_at};
use crate::block_cuts::lines::Lines;
use no_memory::NoMemory;
use rail_types::{List, MAX_BLOCK_LENGTH_M, MAX_CELLS, MAX_OBJECTS};
use route_walk::{Passed, Walk};
use std::alloc::Global;

/// What a network has too much of.
#[derive(Clone, Copy, Debug, PartialEq, Eq)]
pub enum What {
    Zones,
    Points,
    Blocks,
    Cells,
    BlockLength,
}

/// Why a railway's blocks are no network: the cuts of a route lie at one metre, or there is too
/// much of something. A count that is no whole number of 64 bits is told as 0.
#[derive(Clone, Copy, Debug, PartialEq, Eq)]
pub enum Fault {
    EmptyBlock { route: u32, at: u64 },
    Limit { what: What, count: i64 },
}

/// A railway: how many zones, points and operational points it has, what lies along its tracks,
/// and the walks of its routes.
#[derive(Drop)]
pub struct Railway {
    pub zones: u32,
    pub points: u32,
    pub stops: u32,
    pub lines: Lines,
    pub walks: List<Walk>,
}

/// Whether the cut before lies at this metre.
fn lies_at(before: Option<u64>, metres: u64) -> bool
    ensures { result ≡ lies_at before metres }
{
    match before {
        Some(other) => metres == other,
        None => false,
    }
}

/// The metres from the cut before, 0 without one.
fn length_from(before: Option<u64>, metres: u64) -> u64
    ensures { result ≡ length_from before metres }
{
    match before {
        Some(other) => metres.saturating_sub(other),
        None => 0,
    }
}

/// The metre of the first cut that lies where the one before lies.
fn first_empty(passed: &[Passed], cuts: &[usize]) -> Option<u64>
    requires { All (λ cut. cut < length passed.now) cuts.now }
    ensures { result ≡ empty_behind passed.now None cuts.now }
{
    let mut before = None;
    'cuts: for cut in cuts {
        let metres = metres_at(passed, *cut);
        if lies_at(before, metres) {
            return Some(metres);
        }
        before = Some(metres);
    }
    None
}

/// The first length between neighbouring cuts that is over the limit.
fn first_long(passed: &[Passed], cuts: &[usize]) -> Option<u64>
    requires { All (λ cut. cut < length passed.now) cuts.now }
    ensures { result ≡ long_behind passed.now None cuts.now }
{
    let mut before = None;
    'cuts: for cut in cuts {
        let metres = metres_at(passed, *cut);
        let length_m = length_from(before, metres);
        if length_m > u64::from(MAX_BLOCK_LENGTH_M) {
            return Some(length_m);
        }
        before = Some(metres);
    }
    None
}

/// The metre of the first block of a walk that has no length.
fn empty_in(alloc: Global, sights: &[Option<u32>], walk: &Walk) -> Result<Option<u64>, NoMemory>
    ensures { IfOk result (λ at. at ≡ empty_in sights.now walk.now) }
{
    let passed = walk.passed.as_slice();
    let cuts = cut_places(alloc, sights, passed)?;
    Ok(first_empty(passed, &cuts))
}

/// The length of the first block of a walk that is too long.
fn long_in(alloc: Global, sights: &[Option<u32>], walk: &Walk) -> Result<Option<u64>, NoMemory>
    ensures { IfOk result (λ length_m. length_m ≡ long_in sights.now walk.now) }
{
    let passed = walk.passed.as_slice();
    let cuts = cut_places(alloc, sights, passed)?;
    Ok(first_long(passed, &cuts))
}

/// The first block without length, by route, then by metre.
fn empty_fault(
    alloc: Global,
    sights: &[Option<u32>],
    walks: &[Walk],
) -> Result<Option<Fault>, NoMemory>
    requires { length walks.now < 2 ^ 32 }
    ensures { IfOk result (λ fault. fault ≡ empty_fault sights.now 0 walks.now) }
{
    let mut route = 0;
    'walks: for walk in walks {
        if let Some(at) = empty_in(alloc, sights, walk)? {
            return Ok(Some(Fault::EmptyBlock { route, at }));
        }
        route += 1;
    }
    Ok(None)
}

/// A count as it is told.
fn told(count: u128) -> i64
    ensures { result ≡ told count }
{
    if count < 9_223_372_036_854_775_808 {
        count as i64
    } else {
        0
    }
}

/// The first block that is too long.
fn long_fault(
    alloc: Global,
    sights: &[Option<u32>],
    walks: &[Walk],
) -> Result<Option<Fault>, NoMemory>
    ensures { IfOk result (λ fault. fault ≡ long_fault sights.now walks.now) }
{
    'walks: for walk in walks {
        if let Some(length_m) = long_in(alloc, sights, walk)? {
            return Ok(Some(Fault::Limit {
                what: What::BlockLength,
                count: told(u128::from(length_m)),
            }));
        }
    }
    Ok(None)
}

fn limit_over(what: What, most: u32, count: u128) -> Option<Fault>
    ensures { result ≡ limit_over what most count }
{
    if count > u128::from(most) {
        Some(Fault::Limit {
            what,
            count: told(count),
        })
    } else {
        None
    }
}

/// How many blocks the walks have. No count of lists within memory needs more than 128 bits.
fn count_blocks(alloc: Global, sights: &[Option<u32>], walks: &[Walk]) -> Result<u128, NoMemory>
    requires { length walks.now < 2 ^ 32 }
    ensures { IfOk result (λ count. count ≡ count_blocks sights.now walks.now) }
{
    let mut count = 0;
    'walks: for walk in walks {
        count += block_count(alloc, sights, walk)? as u128;
    }
    Ok(count)
}

/// How many cells the blocks of the walks have.
fn count_cells(walks: &[Walk]) -> u128
    requires { length walks.now < 2 ^ 32 }
    ensures { result ≡ count_cells walks.now }
{
    let mut count = 0;
    'walks: for walk in walks {
        count += cell_count(walk) as u128;
    }
    count
}

fn cell_count(walk: &Walk) -> usize
    ensures { result ≡ cell_count walk.now }
{
    zones_in(walk.zones.as_slice())
}

fn zones_in(zones: &[Option<u32>]) -> usize
    ensures { result ≡ count_by is_some zones.now }
{
    zones.iter().filter(|zone| zone.is_some()).count()
}

/// More zones, points, blocks or cells than are allowed.
fn count_fault(alloc: Global, railway: &Railway) -> Result<Option<Fault>, NoMemory>
    requires { length railway.now.walks < 2 ^ 32 }
    ensures { IfOk result (λ fault. fault ≡ count_fault railway.now) }
{
    if let Some(fault) = limit_over(What::Zones, MAX_OBJECTS, u128::from(railway.zones)) {
        return Ok(Some(fault));
    }
    if let Some(fault) = limit_over(What::Points, MAX_OBJECTS, u128::from(railway.points)) {
        return Ok(Some(fault));
    }
    let walks = railway.walks.as_slice();
    let blocks = count_blocks(alloc, railway.lines.sights.as_slice(), walks)?;
    if let Some(fault) = limit_over(What::Blocks, MAX_OBJECTS, blocks) {
        return Ok(Some(fault));
    }
    let fault = limit_over(What::Cells, MAX_CELLS, count_cells(walks));
    Ok(fault)
}

/// The first fault of a railway's blocks, None where they make a network: a block without length,
/// by route, then by metre; too many zones, points, blocks, cells; a block that is too long.
pub fn fault_of(alloc: Global, railway: &Railway) -> Result<Option<Fault>, NoMemory>
    requires { length railway.now.walks < 2 ^ 32 }
    ensures { IfOk result (λ fault. fault ≡ railway_fault railway.now) }
{
    let sights = railway.lines.sights.as_slice();
    let walks = railway.walks.as_slice();
    if let Some(fault) = empty_fault(alloc, sights, walks)? {
        return Ok(Some(fault));
    }
    if let Some(fault) = count_fault(alloc, railway)? {
        return Ok(Some(fault));
    }
    let fault = long_fault(alloc, sights, walks)?;
    Ok(fault)
}
