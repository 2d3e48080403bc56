//! The network of an infrastructure.

ghost use Rattle.std.specs.Prelude.{◌≡◌, ◌<◌, ◌^◌, IfErr, IfOk, None, length};
ghost use Rattle.std.specs.List.{All};
ghost use Rattle.signal_blocks.specs.Faults.{railway_fault};
ghost use Rattle.signal_blocks.specs.CutNetworks.{IsRailway};
ghost use Rattle.signal_blocks.specs.Cuts.{block_count};
ghost use Rattle.signal_blocks.specs.Names.{block_names, stop_names, zone_names};
ghost use Rattle.rail_types.specs.Infras.{IsInfra};
ghost use Rattle.rail_types.specs.Named.{IsId, IsNamed};
ghost use Rattle.track_graph.specs.Layouts.{IsLayoutOf};
ghost use Rattle.signal_blocks.specs.Inside.{told_blocks};
ghost use Rattle.signal_blocks.specs.Networks.{IsNetworkOf, NetTells};
ghost use Rattle.signal_blocks.specs.Railways.{IsRailwayOf};

use crate::block_cuts::{Fault, Railway, fault_of};
use crate::faults::NetFault;
use crate::names::{block_names, route_name, stop_names};
use crate::railways::{railway_of, walks_of};
use crate::zones::zone_names;
use no_memory::NoMemory;
use rail_types::infra_types::Infra;
use rail_types::named_network::{BlockName, Named, ZoneName};
use rail_types::{List, Name};
use std::alloc::Global;
use track_graph::Graph;

/// A railway's fault, told by names.
fn told_blocks(alloc: Global, infra: &Infra, fault: Fault) -> Result<NetFault, NoMemory>
    ensures { IfOk result (λ told. told ≡ told_blocks infra.now fault) }
{
    match fault {
        Fault::EmptyBlock { route, at } => {
            let route = route_name(alloc, infra, route)?;
            Ok(NetFault::EmptyBlock { route, at })
        }
        Fault::Limit { what, count } => Ok(NetFault::Limit { what, count }),
    }
}

/// The names of the blocks and zones of a railway.
fn block_and_zone_names(
    alloc: Global,
    graph: &Graph,
    infra: &Infra,
    railway: &Railway,
) -> Result<(List<BlockName>, List<ZoneName>), NoMemory>
    requires infra { IsInfra infra.now }
    requires graph { IsLayoutOf infra.now graph.now }
    requires long { length railway.now.walks ≡ length infra.now.routes }
    requires few { All (λ walk. block_count railway.now.lines.sights walk < 2 ^ 32)
        railway.now.walks }
    ensures blocks { IfOk result (λ names. names.0
        ≡ block_names railway.now.lines.sights infra.now.routes railway.now.walks) }
    ensures zones { IfOk result (λ names. names.1 ≡ zone_names infra.now graph.now) }
    ensures ids { IfOk result (λ names.
        All (λ zone. All (λ piece. IsId piece.track) zone.pieces) names.1) }
{
    let sights = railway.lines.sights.as_slice();
    let walks = railway.walks.as_slice();
    let blocks = block_names(alloc, sights, infra.routes.as_slice(), walks)?;
    let zones = zone_names(alloc, graph, infra)?;
    Ok((blocks, zones))
}

/// The names of the operational points, blocks and zones of a railway.
fn all_names(
    alloc: Global,
    graph: &Graph,
    infra: &Infra,
    railway: &Railway,
) -> Result<(List<Name>, List<BlockName>, List<ZoneName>), NoMemory>
    requires infra { IsInfra infra.now }
    requires graph { IsLayoutOf infra.now graph.now }
    requires long { length railway.now.walks ≡ length infra.now.routes }
    requires few { All (λ walk. block_count railway.now.lines.sights walk < 2 ^ 32)
        railway.now.walks }
    ensures stops { IfOk result (λ names. names.0 ≡ stop_names infra.now.points) }
    ensures blocks { IfOk result (λ names. names.1
        ≡ block_names railway.now.lines.sights infra.now.routes railway.now.walks) }
    ensures zones { IfOk result (λ names. names.2 ≡ zone_names infra.now graph.now) }
    ensures ids { IfOk result (λ names.
        All (λ zone. All (λ piece. IsId piece.track) zone.pieces) names.2) }
{
    let stops = stop_names(alloc, infra.points.as_slice())?;
    let (blocks, zones) = block_and_zone_names(alloc, graph, infra, railway)?;
    Ok((stops, blocks, zones))
}

/// The network of a railway without fault, with its names.
fn named_network(
    alloc: Global,
    graph: &Graph,
    infra: &Infra,
    railway: &Railway,
) -> Result<Named, NoMemory>
    requires infra { IsInfra infra.now }
    requires graph { IsLayoutOf infra.now graph.now }
    requires railway { IsRailwayOf infra.now graph.now railway.now }
    requires sound { IsRailway railway.now }
    requires none { railway_fault railway.now ≡ None }
    ensures network { IfOk result (IsNetworkOf infra.now) }
    ensures named { IfOk result IsNamed }
{
    let network = crate::block_cuts::network_of(alloc, railway)?;
    let (stops, blocks, zones) = all_names(alloc, graph, infra, railway)?;
    Ok(Named {
        network,
        stops,
        blocks,
        zones,
    })
}

/// The network of a railway with its names, or the railway's first fault.
fn network_with(
    alloc: Global,
    graph: &Graph,
    infra: &Infra,
    railway: &Railway,
) -> Result<Named, NetFault>
    requires infra { IsInfra infra.now }
    requires graph { IsLayoutOf infra.now graph.now }
    requires railway { IsRailwayOf infra.now graph.now railway.now }
    requires sound { IsRailway railway.now }
    ensures network { IfOk result (IsNetworkOf infra.now) }
    ensures named { IfOk result IsNamed }
    ensures fault { IfErr result (NetTells infra.now) }
{
    match fault_of(alloc, railway)? {
        Some(fault) => Err(told_blocks(alloc, infra, fault)?),
        None => Ok(named_network(alloc, graph, infra, railway)?),
    }
}

/// The network of an infrastructure with this graph, or the first fault behind it.
fn network_on(alloc: Global, graph: &Graph, infra: &Infra) -> Result<Named, NetFault>
    requires infra { IsInfra infra.now }
    requires graph { IsLayoutOf infra.now graph.now }
    ensures network { IfOk result (IsNetworkOf infra.now) }
    ensures named { IfOk result IsNamed }
    ensures fault { IfErr result (NetTells infra.now) }
{
    let walks = walks_of(alloc, graph, infra)?;
    let railway = railway_of(alloc, graph, infra, walks)?;
    network_with(alloc, graph, infra, &railway)
}

/// The network of an infrastructure, with the names of its operational points, blocks and zones.
///
/// A block reaches from one cut of a route to the next: routes are cut at their ends and at each
/// detector to which a block signal of the route's direction belongs. Blocks stand by route in file
/// order, then along the route.
///
/// # Errors
///
/// The first fault in this order: `Graph` where two ports name one end of a track, or a position is
/// beyond its track; `Walk` of the first route that has no walk; `EmptyBlock` by route, then by
/// metre; `Limit` of zones, points, blocks, cells, and of the first block that is too long.
/// `Memory` where memory runs out.
#[tactic(auto, using(crate::proofs::Whole::graph_tells))]
pub fn network_of(alloc: Global, infra: &Infra) -> Result<Named, NetFault>
    requires { IsInfra infra.now }
    ensures network { IfOk result (IsNetworkOf infra.now) }
    ensures named { IfOk result IsNamed }
    ensures fault { IfErr result (NetTells infra.now) }
{
    let graph = Graph::of(alloc, infra)?;
    network_on(alloc, &graph, infra)
}
