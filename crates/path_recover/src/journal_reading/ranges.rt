ghost use Rattle.std.specs.Prelude.{◌≡◌, ◌↔◌, ◌<◌, All, IsTrue, length};
ghost use Rattle.rail_types.specs.declared.entries.Wanted.TheVariants.{Asked};
ghost use Rattle.grant_log.specs.Legal.{IsDeedOn, IsWantedOn};

use rail_types::{Claim, Deed, Network, Request, Run, Stop, Wanted};

/// Whether the zones, blocks and operational points of a deed are those of the network.
pub fn is_on(net: &Network, deed: &Deed) -> bool
    ensures { IsTrue result ↔ IsDeedOn net.now deed.now }
{
    match deed {
        Deed::Hold(claims, _) => are_on_zones(net.zones, claims.as_slice()),
        Deed::Grant(wanted, path) => {
            are_on_blocks(net.blocks.len(), path.runs.as_slice()) && is_wanted_on(net, wanted)
        }
        Deed::Free(_) => true,
    }
}

fn are_on_zones(zones: u32, claims: &[Claim]) -> bool
    ensures { IsTrue result ↔ All (λ claim. claim.zone < zones) claims.now }
{
    claims.iter().all(|claim| claim.zone < zones)
}

fn are_on_blocks(blocks: usize, runs: &[Run]) -> bool
    ensures { IsTrue result ↔ All (λ run. run.block < blocks) runs.now }
{
    runs.iter().all(|run| (run.block as usize) < blocks)
}

fn are_stops_of(count: u32, stops: &[Stop]) -> bool
    ensures { IsTrue result ↔ All (λ stop. stop.stop < count) stops.now }
{
    stops.iter().all(|stop| stop.stop < count)
}

fn is_request_on(net: &Network, request: &Request) -> bool
    ensures { IsTrue result ↔ IsWantedOn net.now (Asked request.now) }
{
    request.origin < net.stops
        && request.destination < net.stops
        && are_stops_of(net.stops, request.stops.as_slice())
}

fn is_wanted_on(net: &Network, wanted: &Wanted) -> bool
    ensures { IsTrue result ↔ IsWantedOn net.now wanted.now }
{
    match wanted {
        Wanted::Pinned => true,
        Wanted::Asked(request) => is_request_on(net, request.get()),
    }
}
