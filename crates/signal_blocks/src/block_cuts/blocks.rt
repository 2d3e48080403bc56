//! The blocks of a walk.

ghost use Rattle.std.specs.Prelude.{◌≡◌, ◌≤◌, ◌<◌, ◌^◌, ◌-◌, length, IfOk};
ghost use Rattle.std.specs.List.{All};
ghost use Rattle.std.specs.List.Sorted.{IsStrictlyIncreasing};
ghost use Rattle.signal_blocks.specs.Blocks.{IsBlock, AreBlocks, AreBlocksOf, stretches_between};
ghost use Rattle.signal_blocks.specs.Blocks.{sight_from, AreShort};
ghost use Rattle.signal_blocks.specs.Cuts.{metres_at, cut_places};
ghost use Rattle.route_walk.specs.Sound.{IsWalk};

use crate::block_cuts::cells::cells_between;
use crate::block_cuts::cuts::{cut_places, metres_at, point_at};
use crate::block_cuts::lines::Lines;
use crate::block_cuts::served::served;
use crate::block_cuts::speeds::least_limit;
use no_memory::NoMemory;
use rail_types::Block;
use route_walk::{Stretch, Walk};
use std::alloc::Global;

/// The stretches of track between two places of a walk.
#[tactic(auto, using(crate::proofs::Stretches::reach_within))]
fn stretches_between(walk: &Walk, from: usize, to: usize) -> &[Stretch]
    requires walk { IsWalk walk.now }
    requires order { from ≤ to }
    requires end { to < length walk.now.passed }
    ensures { result.now ≡ stretches_between walk.now from to }
{
    let passed = walk.passed.as_slice();
    let first = point_at(passed, from).reach as usize;
    let last = point_at(passed, to).reach as usize;
    &walk.stretches.as_slice()[first..last]
}

/// The sight distance of the signal at a point, 0 without one.
fn sight_from(sights: &[Option<u32>], point: u32) -> u32
    ensures { result ≡ sight_from sights.now point }
{
    match sights.get(point as usize) {
        Some(Some(sight_m)) => *sight_m,
        _ => 0,
    }
}

/// The block between two places of a walk.
#[tactic(auto, using(crate::proofs::Stretches::ahead))]
fn block_of(
    alloc: Global,
    lines: &Lines,
    walk: &Walk,
    from: usize,
    to: usize,
) -> Result<Block, NoMemory>
    requires walk { IsWalk walk.now }
    requires order { from < to }
    requires end { to < length walk.now.passed }
    requires long { metres_at walk.now.passed to - metres_at walk.now.passed from < 2 ^ 32 }
    ensures { IfOk result (λ block. IsBlock lines.now walk.now from to block) }
{
    let passed = walk.passed.as_slice();
    let stretches = stretches_between(walk, from, to);
    Ok(Block {
        length_m: (metres_at(passed, to) - metres_at(passed, from)) as u32,
        speed: least_limit(&lines.ranges, stretches),
        sight_m: sight_from(lines.sights.as_slice(), point_at(passed, from).point),
        cells: cells_between(alloc, walk, from, to)?,
        from_point: point_at(passed, from).point,
        to_point: point_at(passed, to).point,
        serves: served(alloc, &lines.parts, stretches)?,
    })
}

/// The blocks of a walk that is cut at these places.
fn blocks_of(
    alloc: Global,
    lines: &Lines,
    walk: &Walk,
    cuts: &[usize],
) -> Result<Vec<Block>, NoMemory>
    requires walk { IsWalk walk.now }
    requires some { 0 < length cuts.now }
    requires rise { IsStrictlyIncreasing cuts.now }
    requires within { All (λ cut. cut < length walk.now.passed) cuts.now }
    requires short { AreShort walk.now cuts.now }
    ensures { IfOk result (λ blocks. AreBlocks lines.now walk.now cuts.now blocks.items) }
{
    let mut blocks = Vec::new(alloc);
    'cuts: for next in 1..cuts.len() {
        blocks.push(block_of(alloc, lines, walk, cuts[next - 1], cuts[next])?)?;
    }
    Ok(blocks)
}

/// The blocks of a walk, cut at its ends and at the signals.
pub(crate) fn walk_blocks(alloc: Global, lines: &Lines, walk: &Walk) -> Result<Vec<Block>, NoMemory>
    requires walk { IsWalk walk.now }
    requires short { AreShort walk.now (cut_places lines.now.sights walk.now.passed) }
    ensures { IfOk result (λ blocks. AreBlocksOf lines.now walk.now blocks.items) }
{
    let cuts = cut_places(alloc, lines.sights.as_slice(), walk.passed.as_slice())?;
    blocks_of(alloc, lines, walk, &cuts)
}
