//! Where a walk is cut into blocks.

ghost use Rattle.std.specs.Prelude.{◌≡◌, ◌↔◌, ◌<◌, length, IfOk, IsTrue};
ghost use Rattle.std.specs.List.{All};
ghost use Rattle.std.specs.List.Sorted.{IsStrictlyIncreasing};
ghost use Rattle.signal_blocks.specs.Cuts.{is_cut, block_count, cut_places, point_at, has_signal};
ghost use Rattle.signal_blocks.specs.Cuts.{metres_at};

use no_memory::NoMemory;
use route_walk::{Passed, Walk};
use std::alloc::Global;

/// The point passed at a place.
pub(crate) fn point_at(passed: &[Passed], place: usize) -> Passed
    requires { place < length passed.now }
    ensures { result ≡ point_at passed.now place }
{
    passed[place]
}

/// The metres from the walk's beginning to a place.
pub(crate) fn metres_at(passed: &[Passed], place: usize) -> u64
    requires { place < length passed.now }
    ensures { result ≡ metres_at passed.now place }
{
    point_at(passed, place).metres
}

/// Whether trains that come to this point pass a signal there.
fn has_signal(sights: &[Option<u32>], point: u32) -> bool
    ensures { result ≡ has_signal sights.now point }
{
    match sights.get(point as usize) {
        Some(Some(_)) => true,
        _ => false,
    }
}

/// The places at which a walk is cut: its ends, and where a signal stands.
#[tactic(auto, using(crate::proofs::Ranges::filter_range_more))]
pub(crate) fn cut_places(
    alloc: Global,
    sights: &[Option<u32>],
    passed: &[Passed],
) -> Result<Vec<usize>, NoMemory>
    ensures places { IfOk result (λ cuts. cuts.items ≡ cut_places sights.now passed.now) }
    ensures rise { IfOk result (λ cuts. IsStrictlyIncreasing cuts.items) }
    ensures within { IfOk result (λ cuts. All (λ cut. cut < length passed.now) cuts.items) }
    ensures some { IfOk result (λ cuts. 0 < length passed.now → 0 < length cuts.items) }
{
    let mut cuts = Vec::new(alloc);
    'places: for place in 0..passed.len() {
        if is_cut(sights, passed, place) {
            cuts.push(place)?;
        }
    }
    Ok(cuts)
}

fn is_cut(sights: &[Option<u32>], passed: &[Passed], place: usize) -> bool
    requires { place < length passed.now }
    ensures { result ≡ is_cut sights.now passed.now place }
{
    place == 0 || place == passed.len() - 1 || has_signal(sights, point_at(passed, place).point)
}

/// How many blocks a walk has: one between each two neighbouring cuts. The sight
/// distances are those of the points.
pub fn block_count(alloc: Global, sights: &[Option<u32>], walk: &Walk) -> Result<usize, NoMemory>
    ensures { IfOk result (λ count. count ≡ block_count sights.now walk.now) }
{
    let cuts = cut_places(alloc, sights, walk.passed.as_slice())?;
    Ok(cuts.len().saturating_sub(1))
}
