//! The places of a request as they are listed.

ghost use Rattle.std.specs.Prelude.{◌≡◌, ◌↔◌, ◌<◌, length, Contains, IfNone, IfSome, IsTrue, Some};
ghost use Rattle.std.specs.Prelude.{slice_get};

use crate::Move;
use crate::interned::Members;
use rail_types::List;
use stair_pieces::Place;
use std::marker::Model;

/// The places of a request by their numbers, the moves from the start place,
/// and the moves from each place.
#[derive(Drop)]
pub struct Places {
    pub(crate) members: Members,
    pub(crate) starts: List<Move>,
    pub(crate) moves: Vec<List<Move>>,
}

impl Model for Places {
    ghost use Rattle.tail_states.specs.Listed.{Listed};

    ghost Value = { Listed };

    ghost view = { λ a. record { members = a.members; starts = a.starts; moves = a.moves.items } };
}

impl Places {
    /// How many places there are.
    pub fn count(&self) -> usize
        ensures { result ≡ length self.now.members }
    {
        self.members.len()
    }

    /// The place of a number.
    pub fn place(&self, number: u32) -> &Place
        requires { number < length self.now.members }
        ensures { slice_get self.now.members number ≡ Some result.now }
    {
        self.members.get(number as usize)
    }

    /// Whether this is one of the places. It takes no memory.
    pub fn holds(&self, place: &Place) -> bool
        ensures { IsTrue result ↔ Contains self.now.members place.now }
    {
        self.members.holds(place)
    }

    /// The number of a place, None where it is none of them.
    pub fn number(&self, place: &Place) -> Option<usize>
        ensures found { IfSome result
            (λ number. slice_get self.now.members number ≡ Some place.now) }
        ensures none { IfNone result (¬ Contains self.now.members place.now) }
    {
        self.members.find(place)
    }

    /// The moves from the start place.
    pub fn starts(&self) -> &[Move]
        ensures { result.now ≡ self.now.starts }
    {
        self.starts.as_slice()
    }

    /// The moves from the place of a number.
    pub fn moves(&self, number: u32) -> &[Move]
        requires { number < length self.now.moves }
        ensures { slice_get self.now.moves number ≡ Some result.now }
    {
        self.moves[number as usize].as_slice()
    }
}
