//! The blocks that a train stands on.

ghost use Rattle.std.specs.Prelude.{◌≡◌, ◌≤◌, ◌++◌, ◌∷◌, [], length, drop, IfOk, OnErr, OnOk};
ghost use Rattle.stair_pieces.specs.declared.tail_blocks.TheConstants.{BLOCKS_IN_PLACE};

use no_memory::NoMemory;
use std::alloc::Global;
use std::marker::Model;

// Up to how many blocks a tail takes no memory of its own.
const BLOCKS_IN_PLACE: usize = 4;

/// The tail of a train: the blocks from the oldest that is still under it to that of its head.
/// Contracts see their list. Up to four take no memory of their own.
#[derive(Debug, Drop)]
pub struct Tail {
    // The blocks of a short tail, so many as `len`; none of a longer one.
    len: u8,
    in_place: [u32; BLOCKS_IN_PLACE],
    // The blocks of a longer tail; none of a short one.
    rest: Vec<u32>,
}

impl Model for Tail {
    ghost use Rattle.std.specs.Prelude.{◌≡◌, ◌⊎◌, ◌≤◌, ◌++◌, [], List as list_of, ℕ, take};
    ghost use Rattle.stair_pieces.specs.declared.tail_blocks.TheConstants.{BLOCKS_IN_PLACE};

    ghost Value = { list_of ℕ };

    ghost view = { λ a. take a.len a.in_place ++ a.rest.items };

    ghost invariant = { λ a. (a.len ≤ BLOCKS_IN_PLACE) × ((a.rest.items ≡ []) ⊎ (a.len ≡ 0)) };
}

impl Tail {
    /// No blocks.
    pub fn new(alloc: Global) -> Tail
        ensures { result ≡ [] }
    {
        Tail {
            len: 0,
            in_place: [0; BLOCKS_IN_PLACE],
            rest: Vec::new(alloc),
        }
    }

    /// Puts a block behind the others.
    pub fn push(&mut self, block: u32) -> Result<(), NoMemory>
        ensures ok { OnOk result (self.new ≡ self.old ++ block ∷ []) }
        ensures err { OnErr result (self.new ≡ self.old) }
    {
        if !self.rest.is_empty() {
            self.rest.push(block)?;
            return Ok(());
        }
        let len = self.len as usize;
        if len < BLOCKS_IN_PLACE {
            self.in_place[len] = block;
            self.len += 1;
            return Ok(());
        }
        self.rest.reserve(2 * BLOCKS_IN_PLACE)?;
        let Ok(()) = self.rest.extend_from_slice(&self.in_place) else {
            unreachable!()
        };
        self.rest.push_reserved(block);
        self.len = 0;
        Ok(())
    }

    /// The blocks as a slice.
    pub fn as_slice(&self) -> &[u32]
        ensures { result.now ≡ self.now }
    {
        if self.rest.is_empty() {
            return &self.in_place[..self.len as usize];
        }
        self.rest.as_slice()
    }

    /// How many blocks there are.
    pub fn len(&self) -> usize
        ensures { result ≡ length self.now }
    {
        self.as_slice().len()
    }

    /// Equal blocks of their own.
    pub fn copy(&self, alloc: Global) -> Result<Tail, NoMemory>
        ensures { IfOk result (λ other. other ≡ self.now) }
    {
        Tail::of(alloc, self.as_slice())
    }

    // These blocks.
    fn of(alloc: Global, blocks: &[u32]) -> Result<Tail, NoMemory>
        ensures { IfOk result (λ tail. tail ≡ blocks.now) }
    {
        if blocks.len() > BLOCKS_IN_PLACE {
            let rest = Vec::from_slice(alloc, blocks)?;
            return Ok(Tail {
                len: 0,
                in_place: [0; BLOCKS_IN_PLACE],
                rest,
            });
        }
        Ok(short_tail(alloc, blocks))
    }

    // Equal blocks with one more behind them.
    pub(crate) fn with_behind(&self, alloc: Global, block: u32) -> Result<Tail, NoMemory>
        ensures { IfOk result (λ tail. tail ≡ self.now ++ block ∷ []) }
    {
        let blocks = self.as_slice();
        if blocks.len() < BLOCKS_IN_PLACE {
            let mut tail = short_tail(alloc, blocks);
            tail.push(block)?;
            return Ok(tail);
        }
        let mut rest = Vec::with_capacity(alloc, blocks.len().saturating_add(1))?;
        rest.extend_from_slice(blocks)?;
        rest.push(block)?;
        Ok(Tail {
            len: 0,
            in_place: [0; BLOCKS_IN_PLACE],
            rest,
        })
    }

    // The same without the first ones, so many.
    pub(crate) fn without_first(self, alloc: Global, count: usize) -> Result<Tail, NoMemory>
        requires { count ≤ length self }
        ensures { IfOk result (λ rest. rest ≡ drop count self) }
    {
        if count == 0 {
            return Ok(self);
        }
        let (_, rest) = self.as_slice().split_at(count);
        let rest = Tail::of(alloc, rest)?;
        Ok(rest)
    }
}

// A tail whose blocks stand in place.
fn short_tail(alloc: Global, blocks: &[u32]) -> Tail
    requires { length blocks.now ≤ BLOCKS_IN_PLACE }
    ensures { result ≡ blocks.now }
{
    let mut in_place = [0; BLOCKS_IN_PLACE];
    let (front, _) = in_place.split_at_mut(blocks.len());
    front.copy_from_slice(blocks);
    Tail {
        len: blocks.len() as u8,
        in_place,
        rest: Vec::new(alloc),
    }
}
