//! What is wrong with a network.

ghost use Rattle.std.specs.Prelude.{◌≡◌, ◌↔◌, ◌<◌, length, map, nat_lt, sum, IsTrue};
ghost use Rattle.rail_types.specs.declared.limits.TheConstants.{MAX_CELLS as most_cells};
ghost use Rattle.rail_types.specs.Flaws.{ascends, climbs, exceeds_limits, first_flaw};
ghost use Rattle.rail_types.specs.Flaws.{flaw_of_block, flaw_of_blocks, has_flaw};
ghost use Rattle.rail_types.specs.Networks.{Follows};
ghost use Rattle.rail_types.specs.declared.tracks.NetFlaw.TheVariants.{CellOrder, EmptyBlock};
ghost use Rattle.rail_types.specs.declared.tracks.NetFlaw.TheVariants.{Limit, Point, Range, Serves};

use crate::{
    Block, Cell, MAX_BLOCK_LENGTH_M, MAX_CELLS, MAX_OBJECTS, MAX_SIGHT_M, MAX_SPEED_MM_S, NetFlaw,
    Network,
};

impl Network {
    /// The first flaw by block, then in the order of the kinds; None where there is none. The
    /// numbers may be any. It takes no memory.
    pub fn check(&self) -> Option<NetFlaw>
        ensures { result ≡ first_flaw self.now }
    {
        if let Some(flaw) = self.flaw_of_blocks() {
            return Some(flaw);
        }
        if self.exceeds_limits() {
            return Some(NetFlaw::Limit);
        }
        None
    }

    /// Whether block `b` begins at the point where block `a` ends.
    pub fn follows(&self, a: u32, b: u32) -> bool
        requires before { a < length self.now.blocks }
        requires behind { b < length self.now.blocks }
        ensures { IsTrue result ↔ Follows self.now a b }
    {
        let blocks = self.blocks.as_slice();
        blocks[b as usize].from_point == blocks[a as usize].to_point
    }

    fn flaw_of_blocks(&self) -> Option<NetFlaw>
        ensures { result ≡ flaw_of_blocks self.now self.now.blocks }
    {
        for block in self.blocks.as_slice() {
            if let Some(flaw) = self.flaw_of(block) {
                return Some(flaw);
            }
        }
        None
    }

    fn flaw_of(&self, block: &Block) -> Option<NetFlaw>
        ensures { result ≡ flaw_of_block self.now block.now }
    {
        if block.leaves_zones(self) {
            Some(NetFlaw::Range)
        } else if block.has_cells_out_of_order() {
            Some(NetFlaw::CellOrder)
        } else if block.is_empty() {
            Some(NetFlaw::EmptyBlock)
        } else if block.leaves_points(self) {
            Some(NetFlaw::Point)
        } else if block.serves_out_of_order(self) {
            Some(NetFlaw::Serves)
        } else if block.exceeds_limits() {
            Some(NetFlaw::Limit)
        } else {
            None
        }
    }

    fn exceeds_limits(&self) -> bool
        ensures { result ≡ exceeds_limits self.now }
    {
        self.zones > MAX_OBJECTS
            || self.points > MAX_OBJECTS
            || self.stops > MAX_OBJECTS
            || self.blocks.len() > MAX_OBJECTS as usize
            || has_too_many_cells(self.blocks.as_slice())
    }
}

impl Block {
    fn leaves_zones(&self, net: &Network) -> bool
        ensures { result ≡ has_flaw net.now self.now Range }
    {
        self.cells
            .as_slice()
            .iter()
            .any(|cell| cell.zone >= net.zones)
    }

    fn has_cells_out_of_order(&self) -> bool
        ensures { (net : _) → result ≡ has_flaw net self.now CellOrder }
    {
        !releases_ascend(self.cells.as_slice(), self.length_m)
    }

    fn is_empty(&self) -> bool
        ensures { (net : _) → result ≡ has_flaw net self.now EmptyBlock }
    {
        self.length_m == 0 || self.cells.is_empty()
    }

    fn leaves_points(&self, net: &Network) -> bool
        ensures { result ≡ has_flaw net.now self.now Point }
    {
        self.from_point >= net.points || self.to_point >= net.points
    }

    fn serves_out_of_order(&self, net: &Network) -> bool
        ensures { result ≡ has_flaw net.now self.now Serves }
    {
        !stops_climb(self.serves.as_slice(), net.stops)
    }

    fn exceeds_limits(&self) -> bool
        ensures { (net : _) → result ≡ has_flaw net self.now Limit }
    {
        self.length_m < 1
            || self.length_m > MAX_BLOCK_LENGTH_M
            || self.speed < 1
            || self.speed > MAX_SPEED_MM_S
            || self.sight_m > MAX_SIGHT_M
    }
}

fn releases_ascend(cells: &[Cell], length_m: u32) -> bool
    ensures { result ≡ ascends length_m (map (λ cell. cell.release_m) cells.now) }
{
    let mut least_m = 0u32;
    for cell in cells {
        if cell.release_m < least_m || cell.release_m > length_m {
            return false;
        }
        least_m = cell.release_m;
    }
    true
}

fn stops_climb(serves: &[u32], stops: u32) -> bool
    ensures { result ≡ climbs stops serves.now }
{
    let mut least = 0u32;
    for stop in serves {
        if *stop < least || *stop >= stops {
            return false;
        }
        least = *stop + 1;
    }
    true
}

fn has_too_many_cells(blocks: &[Block]) -> bool
    ensures { result ≡ nat_lt most_cells (sum (map (λ block. length block.cells) blocks.now)) }
{
    // Lists of zones side by side may count more cells than their number's type holds.
    let mut count = 0usize;
    for block in blocks {
        count = count.saturating_add(block.cells.len());
    }
    count > MAX_CELLS as usize
}
