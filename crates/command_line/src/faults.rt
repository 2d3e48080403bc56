ghost use Rattle.std.specs.Prelude.{◌≡◌};

use no_memory::NoMemory;
use thiserror::Error;

/// Why words give no order.
#[derive(Clone, Copy, Debug, PartialEq, Eq, Error)]
pub enum WordsFault {
    #[error("words not understood")]
    NotUnderstood,
    #[error("no memory")]
    Memory,
}

impl From<NoMemory> for WordsFault {
    ghost use Rattle.command_line.specs.declared.faults.WordsFault.{WordsFault};

    ghost from_gives = { λ _ fault. fault ≡ WordsFault.Memory };

    fn from(_refused: NoMemory) -> WordsFault {
        WordsFault::Memory
    }
}
