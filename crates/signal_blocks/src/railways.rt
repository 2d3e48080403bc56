//! The railway of an infrastructure: the walks of its routes, and what lies along its tracks.

ghost use Rattle.std.specs.Prelude.{◌≡◌, ◌<◌, ◌≤◌, length, IfErr, IfOk};
ghost use Rattle.std.specs.List.{All};
ghost use Rattle.signal_blocks.specs.CutNetworks.{IsRailway};
ghost use Rattle.rail_types.specs.Infras.{IsInfra};
ghost use Rattle.route_walk.specs.Sound.{IsSound};
ghost use Rattle.track_graph.specs.Layouts.{IsLayoutOf};
ghost use Rattle.signal_blocks.specs.Inside.{AreLimited, AreLinesOf, told_walk};
ghost use Rattle.signal_blocks.specs.Lines.{speed_ranges, stop_parts};
ghost use Rattle.signal_blocks.specs.Networks.{named_fault, NetTells};
ghost use Rattle.signal_blocks.specs.Railways.{AreWalksOf, IsRailwayOf, point_count};

use crate::block_cuts::{ByRow, Lines, Railway, SpeedRange, StopPart};
use crate::faults::{NetFault, RouteFault};
use crate::lines::{speed_ranges, stop_parts};
use crate::names::{detector_name, route_name};
use crate::posts::sights_by_point;
use no_memory::NoMemory;
use rail_types::List;
use rail_types::infra_types::Infra;
use route_walk::{Walk, WalkFault, walk};
use std::alloc::Global;
use track_graph::Graph;

/// The fault of a walk, told by names.
fn told_walk(alloc: Global, infra: &Infra, fault: WalkFault) -> Result<NetFault, NoMemory>
    ensures { IfOk result (λ told. told ≡ told_walk (named_fault infra.now fault)) }
{
    match fault {
        WalkFault::NoWay { route, at } => {
            let route = route_name(alloc, infra, route)?;
            Ok(NetFault::Walk(RouteFault::NoWay { route, at }))
        }
        WalkFault::Loop { route } => {
            let route = route_name(alloc, infra, route)?;
            Ok(NetFault::Walk(RouteFault::Loop { route }))
        }
        WalkFault::StrayRelease { route, detector } => {
            let route = route_name(alloc, infra, route)?;
            let detector = detector_name(alloc, infra, detector)?;
            Ok(NetFault::Walk(RouteFault::StrayRelease { route, detector }))
        }
        WalkFault::Memory => Ok(NetFault::Memory),
    }
}

/// The walks of all routes, or the fault of the first route that has none.
pub(crate) fn walks_of(alloc: Global, graph: &Graph, infra: &Infra) -> Result<List<Walk>, NetFault>
    requires infra { IsInfra infra.now }
    requires graph { IsLayoutOf infra.now graph.now }
    ensures walks { IfOk result (AreWalksOf infra.now graph.now (length infra.now.routes)) }
    ensures sound { IfOk result (λ walks.
        All (IsSound graph.now.count (point_count infra.now)) walks) }
    ensures fault { IfErr result (NetTells infra.now) }
{
    let mut walks = List::new(alloc);
    'routes: for route in 0..infra.routes.len() as u32 {
        match walk(alloc, graph, infra, route) {
            Ok(walk) => walks.push(walk)?,
            Err(fault) => return Err(told_walk(alloc, infra, fault)?),
        }
    }
    Ok(walks)
}

/// The ranges of speed limits, by their tracks.
fn ranges_by_track(alloc: Global, infra: &Infra) -> Result<ByRow<SpeedRange>, NoMemory>
    requires { IsInfra infra.now }
    ensures ranges { IfOk result (λ ranges. ranges ≡ speed_ranges infra.now.speeds) }
    ensures limits { IfOk result (All (λ range. 1 ≤ range.limit)) }
{
    let tracks = infra.tracks.len() as u32;
    let ranges = speed_ranges(alloc, infra.speeds.as_slice())?;
    let rows = ByRow::of(alloc, tracks, &ranges)?;
    Ok(rows)
}

/// The parts of operational points, by their tracks.
fn parts_by_track(alloc: Global, infra: &Infra) -> Result<ByRow<StopPart>, NoMemory>
    requires { IsInfra infra.now }
    ensures parts { IfOk result (λ parts. parts ≡ stop_parts infra.now.points) }
    ensures numbers { IfOk result (All (λ part. part.stop < length infra.now.points)) }
{
    let tracks = infra.tracks.len() as u32;
    let parts = stop_parts(alloc, infra.points.as_slice())?;
    let rows = ByRow::of(alloc, tracks, &parts)?;
    Ok(rows)
}

/// What lies along the tracks.
fn lines_of(alloc: Global, graph: &Graph, infra: &Infra) -> Result<Lines, NoMemory>
    requires infra { IsInfra infra.now }
    requires graph { IsLayoutOf infra.now graph.now }
    ensures lines { IfOk result (AreLinesOf infra.now graph.now) }
    ensures limits { IfOk result (AreLimited (length infra.now.points)) }
{
    let sights = sights_by_point(alloc, graph, infra)?;
    let ranges = ranges_by_track(alloc, infra)?;
    let parts = parts_by_track(alloc, infra)?;
    Ok(Lines {
        sights,
        ranges,
        parts,
    })
}

/// The railway of an infrastructure with these walks.
pub(crate) fn railway_of(
    alloc: Global,
    graph: &Graph,
    infra: &Infra,
    walks: List<Walk>,
) -> Result<Railway, NoMemory>
    requires infra { IsInfra infra.now }
    requires graph { IsLayoutOf infra.now graph.now }
    requires walks { AreWalksOf infra.now graph.now (length infra.now.routes) walks }
    requires sound { All (IsSound graph.now.count (point_count infra.now)) walks }
    ensures railway { IfOk result (IsRailwayOf infra.now graph.now) }
    ensures sound { IfOk result IsRailway }
{
    let lines = lines_of(alloc, graph, infra)?;
    Ok(Railway {
        zones: graph.zones(),
        points: 2 * (infra.detectors.len() as u32 + infra.buffer_stops.len() as u32),
        stops: infra.points.len() as u32,
        lines,
        walks,
    })
}
