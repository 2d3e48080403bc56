//! Names of operational points and blocks.

ghost use Rattle.std.specs.Prelude.{◌≡◌, ◌++◌, ◌≤◌, ◌^◌, ◌<◌, length, OnOk, IfOk};
ghost use Rattle.std.specs.List.{All};
ghost use Rattle.signal_blocks.specs.Cuts.{block_count};
ghost use Rattle.signal_blocks.specs.Names.{block_names, route_parts, stop_names};
ghost use Rattle.signal_blocks.specs.Networks.{route_name, detector_name};

use crate::block_cuts::block_count;
use no_memory::NoMemory;
use rail_types::infra_types::{Infra, OperationalPoint, Route};
use rail_types::named_network::BlockName;
use rail_types::{List, Name};
use route_walk::Walk;
use std::alloc::Global;

/// The names of the operational points, in their order.
pub(crate) fn stop_names(alloc: Global, points: &[OperationalPoint]) -> Result<List<Name>, NoMemory>
    ensures { IfOk result (λ names. names ≡ stop_names points.now) }
{
    let mut names = List::new(alloc);
    'points: for point in points {
        names.push(point.id.copy(alloc)?)?;
    }
    Ok(names)
}

/// Adds the names of so many blocks of a route.
fn add_parts(
    alloc: Global,
    id: &Name,
    count: usize,
    names: &mut List<BlockName>,
) -> Result<(), NoMemory>
    requires { count < 2 ^ 32 }
    ensures ok { OnOk result (names.new ≡ names.old ++ route_parts id.now count) }
{
    'parts: for part in 0..count as u32 {
        names.push(BlockName {
            route: id.copy(alloc)?,
            part,
        })?;
    }
    Ok(())
}

/// The name of the route of that number.
pub(crate) fn route_name(alloc: Global, infra: &Infra, number: u32) -> Result<Name, NoMemory>
    ensures { IfOk result (λ name. name ≡ route_name infra.now number) }
{
    match infra.routes.get(number as usize) {
        Some(route) => route.id.copy(alloc),
        None => Name::from_bytes(alloc, &[]),
    }
}

/// The name of the detector of that number.
pub(crate) fn detector_name(alloc: Global, infra: &Infra, number: u32) -> Result<Name, NoMemory>
    ensures { IfOk result (λ name. name ≡ detector_name infra.now number) }
{
    match infra.detectors.get(number as usize) {
        Some(detector) => detector.id.copy(alloc),
        None => Name::from_bytes(alloc, &[]),
    }
}

/// The names of the blocks of all routes, each with its walk.
pub(crate) fn block_names(
    alloc: Global,
    sights: &[Option<u32>],
    routes: &[Route],
    walks: &[Walk],
) -> Result<List<BlockName>, NoMemory>
    requires long { length walks.now ≡ length routes.now }
    requires few { All (λ walk. block_count sights.now walk < 2 ^ 32) walks.now }
    ensures { IfOk result (λ names. names ≡ block_names sights.now routes.now walks.now) }
{
    let mut names = List::new(alloc);
    'walks: for number in 0..walks.len() {
        let count = block_count(alloc, sights, &walks[number])?;
        add_parts(alloc, &routes[number].id, count, &mut names)?;
    }
    Ok(names)
}
