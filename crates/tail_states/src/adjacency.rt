//! Which blocks follow which, made once for a network.

ghost use Rattle.std.specs.Prelude.{◌≡◌, ◌<◌, ◌≤◌, ◌∷◌, ◌++◌, [], length, All, IfOk, OnErr, OnOk};
ghost use Rattle.std.specs.Prelude.{Some, slice_get, slice_set};
ghost use Rattle.std.specs.List.{slice_index_or};
ghost use Rattle.blocking_time.specs.Runs.{block_at};
ghost use Rattle.tail_states.specs.Asked.{HasPoints};
ghost use Rattle.tail_states.specs.Following.{AreByPoint, AreFollowers, AreServedBy, AreServing};

use no_memory::NoMemory;
use rail_types::{Block, List, Network};
use std::alloc::Global;
use std::marker::Model;

// Blocks by a number of theirs.
#[derive(Drop)]
pub(crate) struct BlockLists {
    lists: Vec<List<u32>>,
}

impl Model for BlockLists {
    ghost use Rattle.std.specs.Prelude.{List as list_of, ℕ};

    ghost Value = { list_of (list_of ℕ) };

    ghost view = { λ a. a.lists.items };
}

impl BlockLists {
    fn empty(alloc: Global, count: u32) -> Result<BlockLists, NoMemory>
        ensures count { IfOk result (λ made. length made ≡ count) }
        ensures empty { IfOk result (λ made. All (λ blocks. blocks ≡ []) made) }
    {
        let mut lists = Vec::new(alloc);
        while lists.len() < count as usize {
            lists.push(List::new(alloc))?;
        }
        Ok(BlockLists { lists })
    }

    fn add(&mut self, number: u32, block: u32) -> Result<(), NoMemory>
        requires { number < length self.old }
        ensures { OnOk result (self.new
            ≡ slice_set self.old number (slice_index_or self.old number [] ++ block ∷ [])) }
    {
        let blocks = &mut self.lists[number as usize];
        blocks.push(block)?;
        Ok(())
    }

    fn at(&self, number: u32) -> &[u32]
        requires { number < length self.now }
        ensures { slice_get self.now number ≡ Some result.now }
    {
        self.lists[number as usize].as_slice()
    }

    fn len(&self) -> usize
        ensures { result ≡ length self.now }
    {
        self.lists.len()
    }
}

/// The blocks of a network by the point at which they begin, and by the
/// operational points that they serve.
#[derive(Drop)]
pub struct Followers {
    by_point: BlockLists,
    by_stop: BlockLists,
}

impl Model for Followers {
    ghost use Rattle.tail_states.specs.Following.{BlocksByNumber};

    ghost Value = { BlocksByNumber };

    ghost view = { λ a. record { by_point = a.by_point; by_stop = a.by_stop } };
}

impl Followers {
    /// The blocks of a network by the point at which they begin, and by the
    /// operational points that they serve.
    pub fn new(alloc: Global, net: &Network) -> Result<Followers, NoMemory>
        requires { HasPoints net.now }
        ensures { IfOk result (λ followers. AreFollowers net.now followers) }
    {
        Ok(Followers {
            by_point: by_point(alloc, net)?,
            by_stop: by_stop(alloc, net)?,
        })
    }

    /// The blocks that begin at a point.
    pub fn beginning_at(&self, point: u32) -> &[u32]
        requires { point < length self.now.by_point }
        ensures { slice_get self.now.by_point point ≡ Some result.now }
    {
        self.by_point.at(point)
    }

    /// The blocks that serve an operational point, none where the network has no such point.
    pub fn serving(&self, stop: u32) -> &[u32]
        ensures { slice_index_or self.now.by_stop stop [] ≡ result.now }
    {
        if (stop as usize) < self.by_stop.len() {
            return self.by_stop.at(stop);
        }
        &[]
    }
}

fn by_point(alloc: Global, net: &Network) -> Result<BlockLists, NoMemory>
    requires { HasPoints net.now }
    ensures { IfOk result (λ lists. AreByPoint net.now (length net.now.blocks) lists) }
{
    let mut followers = BlockLists::empty(alloc, net.points)?;
    for at in 0..net.blocks.len() {
        let number = at as u32;
        followers.add(block_of(net, number).from_point, number)?;
    }
    Ok(followers)
}

fn by_stop(alloc: Global, net: &Network) -> Result<BlockLists, NoMemory>
    requires { HasPoints net.now }
    ensures { IfOk result (λ lists. AreServing net.now (length net.now.blocks) lists) }
{
    let mut serving = BlockLists::empty(alloc, net.stops)?;
    for at in 0..net.blocks.len() {
        let number = at as u32;
        add_served(&mut serving, block_of(net, number), number)?;
    }
    Ok(serving)
}

// Puts a block behind those that serve the operational points that it serves.
fn add_served(serving: &mut BlockLists, block: &Block, number: u32) -> Result<(), NoMemory>
    requires { All (λ stop. stop < length serving.old) block.now.serves }
    ensures { OnOk result
        (AreServedBy block.now.serves number serving.old serving.new) }
{
    for stop in block.serves.as_slice() {
        serving.add(*stop, number)?;
    }
    Ok(())
}

/// A block by its number.
pub(crate) fn block_of(net: &Network, number: u32) -> &Block
    requires { number < length net.now.blocks }
    ensures { result.now ≡ block_at net.now number }
{
    &net.blocks.as_slice()[number as usize]
}
