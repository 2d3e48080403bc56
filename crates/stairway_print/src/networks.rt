//! The table of a network.

ghost use Rattle.std.specs.Prelude.{◌≡◌, ◌++◌, IfOk, OnOk};
ghost use Rattle.stairway_print.specs.Networks.{header_text, network_text};

use crate::blocks::push_blocks;
use crate::words::push_number;
use crate::zones::push_zones;
use no_memory::NoMemory;
use rail_types::Network;
use rail_types::named_network::Named;
use std::alloc::Global;

/// The table of a network: a line of counts, then a line for each zone with its pieces of track,
/// then one for each block with its route, its lengths in metres, its speed in millimetres a
/// second, its cells and the operational points that it serves. Names are escaped, so that fields
/// are what stands between spaces.
pub fn network_table(alloc: Global, named: &Named) -> Result<Vec<u8>, NoMemory>
    ensures { IfOk result (λ text. text.items ≡ network_text named.now) }
{
    let mut text = Vec::new(alloc);
    push_header(&mut text, &named.network)?;
    push_zones(alloc, &mut text, named.zones.as_slice())?;
    push_blocks(
        alloc,
        &mut text,
        named.network.blocks.as_slice(),
        named.blocks.as_slice(),
        named.stops.as_slice(),
    )?;
    Ok(text)
}

fn push_header(to: &mut Vec<u8>, net: &Network) -> Result<(), NoMemory>
    ensures { OnOk result (to.new.items ≡ to.old.items ++ header_text net.now) }
{
    push_number(to, b"zones ", u64::from(net.zones))?;
    push_number(to, b" blocks ", net.blocks.len() as u64)?;
    push_number(to, b" stops ", u64::from(net.stops))?;
    to.push(b'\n')?;
    Ok(())
}
