//! The network of a railway.

ghost use Rattle.std.specs.Prelude.{◌≡◌, ◌≤◌, length, None, IfOk};
ghost use Rattle.std.specs.List.{All};
ghost use Rattle.rail_types.specs.declared.limits.TheConstants.{MAX_OBJECTS};
ghost use Rattle.rail_types.specs.Flaws.{first_flaw};
ghost use Rattle.signal_blocks.specs.Faults.{count_blocks, railway_fault};
ghost use Rattle.signal_blocks.specs.CutNetworks.{IsRailway, AreInOrder, IsNetwork, AreFine};

use crate::block_cuts::blocks::walk_blocks;
use crate::block_cuts::faults::Railway;
use crate::block_cuts::lines::Lines;
use no_memory::NoMemory;
use rail_types::{Block, List, Network};
use route_walk::Walk;
use std::alloc::Global;

/// The blocks of all walks, one walk behind the other.
fn all_blocks(alloc: Global, lines: &Lines, walks: &[Walk]) -> Result<Vec<Block>, NoMemory>
    requires { All (AreFine lines.now) walks.now }
    ensures { IfOk result (λ blocks. AreInOrder lines.now walks.now blocks.items) }
{
    let mut blocks = Vec::new(alloc);
    'walks: for walk in walks {
        let mut own = walk_blocks(alloc, lines, walk)?;
        blocks.append(&mut own)?;
    }
    Ok(blocks)
}

/// The network of a railway without fault.
pub fn network_of(alloc: Global, railway: &Railway) -> Result<Network, NoMemory>
    requires railway { IsRailway railway.now }
    requires none { railway_fault railway.now ≡ None }
    ensures network { IfOk result (λ network. IsNetwork railway.now network) }
    ensures sound { IfOk result (λ network. first_flaw network ≡ None) }
    ensures few { IfOk result (λ network.
        count_blocks railway.now.lines.sights railway.now.walks ≤ MAX_OBJECTS) }
    ensures count { IfOk result (λ network.
        length network.blocks ≡ count_blocks railway.now.lines.sights railway.now.walks) }
{
    let blocks = all_blocks(alloc, &railway.lines, railway.walks.as_slice())?;
    Ok(Network {
        zones: railway.zones,
        points: railway.points,
        stops: railway.stops,
        blocks: List::from_vec(blocks),
    })
}
