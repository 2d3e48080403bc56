//! Why a turn ends before anything is done in it.

use no_memory::NoMemory;

/// Why a turn ended before anything was done in it but settling.
#[derive(Clone, Copy, Debug, PartialEq, Eq)]
pub enum Halt {
    /// The disk failed: what was not settled could not be settled, or an entry could not be begun.
    DiskFault,
    /// Memory was wanted.
    NoMemory,
    /// The front that was named is beyond the front that the turn found.
    Ahead { after: u64, front: u64 },
}

impl From<NoMemory> for Halt {
    ghost use Rattle.std.specs.Prelude.{◌≡◌};
    ghost use Rattle.ask_turns.specs.declared.client_turns.halts.Halt.TheVariants.{
      NoMemory as no_memory,
    };

    ghost from_gives = { λ _ halt. halt ≡ no_memory };

    fn from(_refused: NoMemory) -> Halt {
        Halt::NoMemory
    }
}
