//! The cells of a block.

ghost use Rattle.std.specs.Prelude.{◌≡◌, ◌≤◌, ◌<◌, ◌^◌, ◌+◌, ◌-◌, length, IfOk, slice_index_or};
ghost use Rattle.std.specs.Prelude.{slice_get, None};
ghost use Rattle.std.specs.List.Sorted.{IsNonDecreasing};
ghost use Rattle.signal_blocks.specs.Cells.{release_of, cell_at, cells_between, from_end};
ghost use Rattle.signal_blocks.specs.Cuts.{metres_at};
ghost use Rattle.route_walk.specs.Sound.{IsWalk};

use crate::block_cuts::cuts::metres_at;
use no_memory::NoMemory;
use rail_types::{Cell, List};
use route_walk::Walk;
use std::alloc::Global;

fn number_at(numbers: &[u64], place: usize) -> Option<u64>
    ensures { result ≡ slice_get numbers.now place }
{
    match numbers.get(place) {
        Some(number) => Some(*number),
        None => None,
    }
}

/// The first of the ascending numbers from a number on.
fn from_end(releases: &[u64], end: u64) -> Option<u64>
    requires { IsNonDecreasing releases.now }
    ensures { result ≡ from_end releases.now end }
{
    let first = releases.partition_point(|metres| *metres < end);
    number_at(releases, first)
}

/// The first release detector at or after the cell's end, or the
/// block's end where that comes first.
fn release_of(releases: &[u64], end: u64, last: u64) -> u64
    requires { IsNonDecreasing releases.now }
    ensures { result ≡ release_of releases.now end last }
{
    match from_end(releases, end) {
        Some(metres) => last.min(metres),
        None => last,
    }
}

fn zone_at(zones: &[Option<u32>], place: usize) -> Option<u32>
    ensures { result ≡ slice_index_or zones.now place None }
{
    match zones.get(place) {
        Some(zone) => *zone,
        None => None,
    }
}

/// The cell that begins at a place, None where no zone is passed before the next one.
#[tactic(auto, using(crate::proofs::Releases::release_between))]
fn cell_at(walk: &Walk, from: usize, to: usize, place: usize) -> Option<Cell>
    requires walk { IsWalk walk.now }
    requires from { from ≤ place }
    requires to { place < to }
    requires end { to < length walk.now.passed }
    requires long { metres_at walk.now.passed to - metres_at walk.now.passed from < 2 ^ 32 }
    ensures { result ≡ cell_at walk.now from to place }
{
    let zone = zone_at(walk.zones.as_slice(), place)?;
    let passed = walk.passed.as_slice();
    let end = metres_at(passed, place + 1);
    let release = release_of(walk.releases.as_slice(), end, metres_at(passed, to));
    Some(Cell {
        zone,
        release_m: (release - metres_at(passed, from)) as u32,
    })
}

/// The cells of the block between two places.
#[tactic(auto, using(crate::proofs::Ranges::filter_map_range_more))]
pub(crate) fn cells_between(
    alloc: Global,
    walk: &Walk,
    from: usize,
    to: usize,
) -> Result<List<Cell>, NoMemory>
    requires walk { IsWalk walk.now }
    requires order { from < to }
    requires end { to < length walk.now.passed }
    requires long { metres_at walk.now.passed to - metres_at walk.now.passed from < 2 ^ 32 }
    ensures { IfOk result (λ cells. cells ≡ cells_between walk.now from to) }
{
    let mut cells = List::new(alloc);
    'places: for place in from..to {
        if let Some(cell) = cell_at(walk, from, to, place) {
            cells.push(cell)?;
        }
    }
    Ok(cells)
}
