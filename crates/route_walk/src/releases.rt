//! The release detectors of a walk.

ghost use Rattle.std.specs.Prelude.{◌≡◌, ◌<◌, ◌*◌, ◌^◌, ℕ, length, IfOk};
ghost use Rattle.route_walk.specs.Releases.{first_stray, has, release_at, releases_at};

use crate::walks::Passed;
use indexmap::IndexSet;
use no_memory::NoMemory;
use std::alloc::Global;

/// Whether the number is in the set.
fn has(numbers: &IndexSet<u32>, number: u32) -> bool
    ensures { result ≡ has numbers.now.keys number }
{
    numbers.contains(&number)
}

/// The first of these releases that is none of the detectors.
pub(crate) fn first_stray(detectors: &IndexSet<u32>, releases: &[u32]) -> Option<u32>
    ensures { result ≡ first_stray detectors.now.keys releases.now }
{
    'releases: for release in releases {
        if !has(detectors, *release) {
            return Some(*release);
        }
    }
    None
}

fn set_of(alloc: Global, numbers: &[u32]) -> Result<IndexSet<u32>, NoMemory>
    ensures { IfOk result (λ set. (number : ℕ) → has set.keys number ≡ has numbers.now number) }
{
    let mut set = IndexSet::new(alloc);
    'numbers: for number in numbers {
        set.insert(*number)?;
    }
    Ok(set)
}

fn release_at(detectors: u32, releases: &IndexSet<u32>, one: &Passed) -> Option<u64>
    requires { 2 * detectors < 2 ^ 32 }
    ensures { result ≡ release_at detectors releases.now.keys one.now }
{
    if one.point < 2 * detectors && has(releases, one.point / 2) {
        Some(one.metres)
    } else {
        None
    }
}

/// The metres of those points passed that are among these releases; so many detectors
/// stand before the buffer stops.
pub(crate) fn release_metres(
    alloc: Global,
    detectors: u32,
    releases: &[u32],
    passed: &[Passed],
) -> Result<Vec<u64>, NoMemory>
    requires { 2 * detectors < 2 ^ 32 }
    ensures { IfOk result (λ metres. metres.items ≡ releases_at detectors releases.now passed.now) }
{
    let wanted = set_of(alloc, releases)?;
    metres_among(alloc, detectors, &wanted, passed)
}

fn metres_among(
    alloc: Global,
    detectors: u32,
    releases: &IndexSet<u32>,
    passed: &[Passed],
) -> Result<Vec<u64>, NoMemory>
    requires { 2 * detectors < 2 ^ 32 }
    ensures { IfOk result (λ metres.
        metres.items ≡ releases_at detectors releases.now.keys passed.now) }
{
    let mut metres = Vec::new(alloc);
    'points: for one in passed {
        if let Some(metre) = release_at(detectors, releases, one) {
            metres.push(metre)?;
        }
    }
    Ok(metres)
}
