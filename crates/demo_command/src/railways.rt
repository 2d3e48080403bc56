//! The railway of the demo.

ghost use Rattle.std.specs.Prelude.{◌≡◌, ◌∷◌, ◌<◌, [], codes, IfOk};
ghost use Rattle.demo_command.specs.Railways.{block_at, block_name_at, cell_of, demo_base};
ghost use Rattle.demo_command.specs.Railways.{demo_network, demo_railway, first_block_names};
ghost use Rattle.demo_command.specs.Railways.{first_blocks, first_zone_names, piece_at, served_by};
ghost use Rattle.demo_command.specs.Railways.{zone_name_at};

use no_memory::NoMemory;
use rail_types::named_network::{BlockName, Named, TrackPiece, ZoneName};
use rail_types::{Base, Block, Cell, List, Name, Network, Settings};
use std::alloc::Global;

// How many blocks the route has.
const BLOCKS: u32 = 40;

const LENGTH_M: u32 = 2000;

const SPEED_MM_S: u32 = 200_000;

const SIGHT_M: u32 = 400;

// The points at which the route begins and ends.
const WEST: u32 = 78;

const EAST: u32 = 80;

const POINTS: u32 = 82;

/// The network, with its names.
pub(crate) fn railway(alloc: Global) -> Result<Named, NoMemory>
    ensures { IfOk result (λ railway. railway ≡ demo_railway) }
{
    Ok(Named {
        network: network(alloc)?,
        stops: stops(alloc)?,
        blocks: block_names(alloc)?,
        zones: zone_names(alloc)?,
    })
}

fn network(alloc: Global) -> Result<Network, NoMemory>
    ensures { IfOk result (λ network. network ≡ demo_network) }
{
    Ok(Network {
        zones: BLOCKS,
        points: POINTS,
        stops: 2,
        blocks: blocks(alloc)?,
    })
}

#[tactic(auto, unfolding(crate::specs::Railways::first_blocks))]
fn blocks(alloc: Global) -> Result<List<Block>, NoMemory>
    ensures { IfOk result (λ blocks. blocks ≡ first_blocks 40) }
{
    let mut blocks = List::new(alloc);
    for at in 0..BLOCKS {
        blocks.push(block(alloc, at)?)?;
    }
    Ok(blocks)
}

fn block(alloc: Global, at: u32) -> Result<Block, NoMemory>
    requires { at < 40 }
    ensures { IfOk result (λ block. block ≡ block_at at) }
{
    Ok(Block {
        length_m: LENGTH_M,
        speed: SPEED_MM_S,
        sight_m: if at == 0 { 0 } else { SIGHT_M },
        cells: cells(alloc, at)?,
        from_point: if at == 0 { WEST } else { 2 * (at - 1) },
        to_point: if at == 39 { EAST } else { 2 * at },
        serves: serves(alloc, at)?,
    })
}

fn cells(alloc: Global, at: u32) -> Result<List<Cell>, NoMemory>
    ensures { IfOk result (λ cells. cells ≡ cell_of at ∷ []) }
{
    let mut cells = List::new(alloc);
    cells.push(Cell {
        zone: at,
        release_m: LENGTH_M,
    })?;
    Ok(cells)
}

fn serves(alloc: Global, at: u32) -> Result<List<u32>, NoMemory>
    ensures { IfOk result (λ stops. stops ≡ served_by at) }
{
    let mut stops = List::new(alloc);
    if at == 0 {
        stops.push(0)?;
    } else if at == 39 {
        stops.push(1)?;
    }
    Ok(stops)
}

fn stops(alloc: Global) -> Result<List<Name>, NoMemory>
    ensures { IfOk result (λ stops. stops ≡ codes "W" ∷ codes "E" ∷ []) }
{
    let mut stops = List::new(alloc);
    stops.push(Name::from_bytes(alloc, b"W")?)?;
    stops.push(Name::from_bytes(alloc, b"E")?)?;
    Ok(stops)
}

#[tactic(auto, unfolding(crate::specs::Railways::first_block_names))]
fn block_names(alloc: Global) -> Result<List<BlockName>, NoMemory>
    ensures { IfOk result (λ names. names ≡ first_block_names 40) }
{
    let mut names = List::new(alloc);
    for at in 0..BLOCKS {
        names.push(block_name(alloc, at)?)?;
    }
    Ok(names)
}

fn block_name(alloc: Global, at: u32) -> Result<BlockName, NoMemory>
    ensures { IfOk result (λ name. name ≡ block_name_at at) }
{
    Ok(BlockName {
        route: Name::from_bytes(alloc, b"W->E")?,
        part: at,
    })
}

#[tactic(auto, unfolding(crate::specs::Railways::first_zone_names))]
fn zone_names(alloc: Global) -> Result<List<ZoneName>, NoMemory>
    ensures { IfOk result (λ names. names ≡ first_zone_names 40) }
{
    let mut names = List::new(alloc);
    for at in 0..BLOCKS {
        names.push(zone_name(alloc, at)?)?;
    }
    Ok(names)
}

fn zone_name(alloc: Global, at: u32) -> Result<ZoneName, NoMemory>
    requires { at < 40 }
    ensures { IfOk result (λ name. name ≡ zone_name_at at) }
{
    let mut pieces = List::new(alloc);
    pieces.push(piece(alloc, at)?)?;
    Ok(ZoneName { pieces })
}

fn piece(alloc: Global, at: u32) -> Result<TrackPiece, NoMemory>
    requires { at < 40 }
    ensures { IfOk result (λ piece. piece ≡ piece_at at) }
{
    Ok(TrackPiece {
        track: Name::from_bytes(alloc, b"T")?,
        begin: LENGTH_M * at,
        end: LENGTH_M * at + LENGTH_M,
    })
}

/// The timetable, in which no train is planned.
pub(crate) fn base(alloc: Global) -> Base
    ensures { result ≡ demo_base }
{
    Base {
        settings: Settings {
            tick_s: 10,
            setting: 1,
            release: 1,
            horizon: 17280,
            journal_bytes: 268_435_456,
            speed_loss: false,
        },
        claims: List::new(alloc),
    }
}
