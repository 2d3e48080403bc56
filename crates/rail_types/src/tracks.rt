//! Blocks and the network that they make.

ghost use Rattle.std.specs.Prelude.{◌≡◌, IfOk};

use crate::List;
use no_memory::NoMemory;
use std::alloc::Global;

/// One passage of a block through a zone: the zone, and the metres from the block's beginning to
/// the point behind which the zone is released.
#[derive(Clone, Copy, Debug, PartialEq, Eq)]
pub struct Cell {
    pub zone: u32,
    pub release_m: u32,
}

/// A block section: its length and sight distance in metres, its greatest speed in millimetres a
/// second, its cells in order, the points at which it begins and ends, and the operational
/// points that it serves, ascending.
#[derive(Debug, Drop)]
pub struct Block {
    pub length_m: u32,
    pub speed: u32,
    pub sight_m: u32,
    pub cells: List<Cell>,
    pub from_point: u32,
    pub to_point: u32,
    pub serves: List<u32>,
}

/// The blocks of a railway, and how many zones, points and operational points they speak of.
#[derive(Debug, Drop)]
pub struct Network {
    pub zones: u32,
    pub points: u32,
    pub stops: u32,
    pub blocks: List<Block>,
}

/// What is wrong with a network, in the order in which a block is looked through: a zone out of
/// range, cells out of order or past the block's end, no length or no cell, a point out of range,
/// served points unsorted or out of range, a number outside its limits; and last, more zones,
/// points, operational points, blocks or cells than are allowed.
#[derive(Clone, Copy, Debug, PartialEq, Eq)]
pub enum NetFlaw {
    Range,
    CellOrder,
    EmptyBlock,
    Point,
    Serves,
    Limit,
}

impl Block {
    /// An equal block of its own.
    pub fn copy(&self, alloc: Global) -> Result<Block, NoMemory>
        ensures { IfOk result (λ block. block ≡ self.now) }
    {
        Ok(Block {
            length_m: self.length_m,
            speed: self.speed,
            sight_m: self.sight_m,
            cells: self.cells.copy(alloc)?,
            from_point: self.from_point,
            to_point: self.to_point,
            serves: self.serves.copy(alloc)?,
        })
    }
}

impl Network {
    /// An equal network of its own.
    pub fn copy(&self, alloc: Global) -> Result<Network, NoMemory>
        ensures { IfOk result (λ network. network ≡ self.now) }
    {
        let mut blocks = List::new(alloc);
        for block in self.blocks.as_slice() {
            blocks.push(block.copy(alloc)?)?;
        }
        Ok(Network {
            zones: self.zones,
            points: self.points,
            stops: self.stops,
            blocks,
        })
    }
}
