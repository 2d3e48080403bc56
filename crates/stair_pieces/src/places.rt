//! Where a train is at the end of a run, and how it may go on.

ghost use Rattle.std.specs.Prelude.{◌≡◌, ◌≢◌, ◌<◌, ◌≤◌, ◌^◌, ◌++◌, ◌∷◌, [], true, length, drop};
ghost use Rattle.std.specs.Prelude.{IfOk, fold};
ghost use Rattle.std.specs.Cmp.{partial_equiv_from_equiv};
ghost use Rattle.std.proofs.Common.{ap};
ghost use Rattle.running_time.specs.Limits.{IsEnterWithinLimits};
ghost use Rattle.stair_pieces.specs.Alike.{
  entry_number,
  hash_words,
  word_with,
  same_place,
  same_place-equiv,
  same_place-Decides,
};
ghost use Rattle.stair_pieces.specs.Places.{place_after, start_place, under_train};
ghost use Rattle.stair_pieces.specs.Steps.{IsTailIn};

use crate::claims::entry;
use crate::tail_blocks::Tail;
use no_memory::NoMemory;
use rail_types::{Network, Train};
use running_time::{Edge, Enter};
use std::alloc::Global;
use std::hash::{Hash, Hasher};

// By what the number of a place is multiplied for each block under the train: odd, and its bits in
// no order, 2^64 divided by the golden ratio.
const SPREAD: u64 = 0x9e37_79b9_7f4a_7c15;

/// Where a train is at the end of a run: the blocks from the oldest that is still under it to that
/// of its head, how it entered the last of them, whether it stands now, and how many named stops it
/// has made, one more behind an end.
#[derive(Debug, Drop)]
pub struct Place {
    pub tail: Tail,
    pub entered: Enter,
    pub standing: bool,
    pub made: u32,
}

/// A block that a train runs through next, and whether it stops at its end.
#[derive(Clone, Copy, Debug, PartialEq, Eq)]
pub struct Step {
    pub block: u32,
    pub exit: Edge,
}

// Where the longest end of these blocks begins in which those behind the
// first are shorter than the train.
fn first_under(net: &Network, train: &Train, blocks: &[u32]) -> usize
    requires tail { IsTailIn net.now train.now blocks.now }
    ensures value { drop result blocks.now ≡ under_train net.now train.now blocks.now }
    ensures within { result ≤ length blocks.now }
{
    let mut at = blocks.len();
    let mut gone = 0u32;
    while at > 0 && gone < train.length_m {
        at -= 1;
        gone += net.blocks.as_slice()[blocks[at] as usize].length_m;
    }
    at
}

impl Place {
    /// The place of a train that has not begun its path.
    pub fn start(alloc: Global) -> Place
        ensures { result ≡ start_place }
    {
        Place {
            tail: Tail::new(alloc),
            entered: Enter::Still,
            standing: true,
            made: 0,
        }
    }

    /// The place after a step, which has a block under the train.
    pub fn after(
        &self,
        alloc: Global,
        net: &Network,
        train: &Train,
        step: Step,
    ) -> Result<Place, NoMemory>
        requires tail { IsTailIn net.now train.now self.now.tail }
        requires begins { self.now.tail ≡ [] → self.now.standing ≡ true }
        requires step { step.block < length net.now.blocks }
        requires made { self.now.made < 2 ^ 31 }
        ensures value { IfOk result (λ place.
            place ≡ place_after net.now train.now self.now step) }
        ensures tail { IfOk result (λ place. IsTailIn net.now train.now place.tail) }
        ensures gone { IfOk result (λ place. place.tail ≢ []) }
        ensures entered { IfOk result (λ place. IsEnterWithinLimits place.entered) }
    {
        let place = self.moved(alloc, net, train, step)?;
        Ok(place)
    }

    fn moved(
        &self,
        alloc: Global,
        net: &Network,
        train: &Train,
        step: Step,
    ) -> Result<Place, NoMemory>
        requires tail { IsTailIn net.now train.now self.now.tail }
        requires begins { self.now.tail ≡ [] → self.now.standing ≡ true }
        requires step { step.block < length net.now.blocks }
        requires made { self.now.made < 2 ^ 31 }
        ensures value { IfOk result (λ place.
            place ≡ place_after net.now train.now self.now step) }
        ensures entered { IfOk result (λ place. IsEnterWithinLimits place.entered) }
    {
        let tail = self.tail_behind(alloc, net, train, step.block)?;
        let entered = entry(net, train, self);
        let (standing, made) = match step.exit {
            Edge::Still => (true, self.made + 1),
            Edge::Rolling => (false, self.made),
        };
        Ok(Place {
            tail,
            entered,
            standing,
            made,
        })
    }

    // The blocks under the train where its head is at the end of this one.
    fn tail_behind(
        &self,
        alloc: Global,
        net: &Network,
        train: &Train,
        block: u32,
    ) -> Result<Tail, NoMemory>
        requires tail { IsTailIn net.now train.now self.now.tail }
        requires block { block < length net.now.blocks }
        ensures { IfOk result (λ tail.
            tail ≡ under_train net.now train.now (self.now.tail ++ block ∷ [])) }
    {
        let blocks = self.tail.with_behind(alloc, block)?;
        let gone = first_under(net, train, blocks.as_slice());
        let tail = blocks.without_first(alloc, gone)?;
        Ok(tail)
    }

    /// An equal place of its own.
    pub fn copy(&self, alloc: Global) -> Result<Place, NoMemory>
        ensures { IfOk result (λ place. place ≡ self.now) }
    {
        Ok(Place {
            tail: self.tail.copy(alloc)?,
            entered: self.entered,
            standing: self.standing,
            made: self.made,
        })
    }
}

// A number for each way to enter a block.
fn number_of(entered: Enter) -> u64
    ensures { result ≡ entry_number entered }
{
    match entered {
        Enter::Still => 0,
        Enter::From(speed) => u64::from(speed) + 1,
    }
}

// The word of all numbers so far and this one, modulo 2^64.
fn word_with(word: u64, number: u64) -> u64
    ensures { result ≡ word_with word number }
{
    word.wrapping_mul(SPREAD).wrapping_add(number)
}

// The word of a place: that of the blocks under the train behind the word of all else.
fn word_of(tail: &[u32], other: u64) -> u64
    ensures { result ≡ fold word_with other tail.now }
{
    let mut word = other;
    for block in tail {
        word = word_with(word, u64::from(*block));
    }
    word
}

impl PartialEq for Place {
    ghost eq = { same_place };

    ghost laws = { partial_equiv_from_equiv same_place-equiv };

    fn eq(&self, other: &Place) -> bool {
        self.tail.as_slice() == other.tail.as_slice()
            && number_of(self.entered) == number_of(other.entered)
            && self.standing == other.standing
            && self.made == other.made
    }
}

impl Eq for Place {
    ghost laws = { same_place-equiv };
}

impl Hash for Place {
    ghost hash_input = { hash_words };

    ghost respects_eq = { λ a b same. ap hash_words ((same_place-Decides a b).0 same) };

    fn hash<H: Hasher>(&self, state: &mut H) {
        let other = word_with(u64::from(self.made), number_of(self.entered));
        state.write_u64(word_of(self.tail.as_slice(), other));
    }
}
