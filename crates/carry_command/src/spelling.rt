//! An entry as it stands in a journal.

ghost use Rattle.std.specs.Prelude.{◌≡◌, ◌∷◌, ◌++◌, ◌<◌, ◌^◌, OnOk, length};
ghost use Rattle.path_recover.specs.spelling.Body.{body_of};
ghost use Rattle.path_recover.specs.spelling.Within.{HasBody};
ghost use Rattle.path_recover.specs.journal.Histories.{counted};
ghost use Rattle.rail_types.specs.Limits.{IsEntryWithinLimits};

use byte_fields::{Buffer, put_u8, put_u32};
use no_memory::NoMemory;
use path_recover::spelling::{body_len, write};
use rail_types::Entry;

/// Puts an open gate, and an entry's body behind its length, behind a text.
pub(crate) fn push_record(entry: &Entry, to: &mut Buffer) -> Result<(), NoMemory>
    requires within { IsEntryWithinLimits entry.now }
    requires short { length (body_of entry.now) < 2 ^ 32 }
    ensures spelled { OnOk result (to.new.held
        ≡ to.old.held ++ 1 ∷ counted (body_of entry.now)) }
    ensures has { OnOk result (HasBody entry.now) }
{
    put_u8(to, 1)?;
    put_u32(to, body_len(entry) as u32)?;
    write(entry, to)?;
    Ok(())
}
