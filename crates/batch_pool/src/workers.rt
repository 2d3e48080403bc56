//! Who answers the lines of a batch.

ghost use Rattle.std.specs.Prelude.{◌+◌, ◌≤◌, ℕ, List as list_of};

use rail_types::List;
use std::sync::Wait;

/// Greatest number of workers that answer at once, each in a thread where one can be made.
pub const MAX_WORKERS_AT_ONCE: usize = 16;

/// One that answers lines, each by what it has become through those before.
pub trait Worker: Send + Drop {
    type Reply: Send + Drop;

    /// The line at this place of the list, with this text, was told this reply, which took the
    /// worker from one state to the other.
    ghost gives: { Self → ℕ → list_of ℕ → Self.Reply → Self → Type 0 };

    /// How many lines it may still be asked at least.
    ghost left: { Self → ℕ };

    /// What it needs before an answer, and keeps.
    ghost is_sound: { Self → Type 0 };

    /// The texts that it may be asked.
    ghost is_line: { list_of ℕ → Type 0 };

    /// Answers the line at that place of the list.
    fn answer<R: Wait>(&mut self, rt: &R, at: u32, text: &[u8]) -> Self::Reply
        requires left { 1 ≤ left self.old }
        requires sound { is_sound self.old }
        requires line { is_line text.now }
        ensures sound { is_sound self.new }
        ensures left { left self.old ≤ left self.new + 1 }
        ensures gives { gives self.old at text.now result self.new };
}

/// A worker that comes back, and what it answered to which places, in the order in which it did.
#[derive(Drop)]
pub struct Served<W: Worker> {
    pub worker: W,
    pub answers: List<(u32, W::Reply)>,
}
