//! The record of an entry.

ghost use Rattle.std.specs.Prelude.{◌≡◌, ◌+◌, ◌<◌, ◌^◌, length, IfOk, OnOk};
ghost use Rattle.rail_types.specs.Limits.{IsEntryWithinLimits};
ghost use Rattle.entry_codec.specs.Body.{body_of};
ghost use Rattle.entry_codec.specs.Within.{HasBody};
ghost use Rattle.grant_journal.specs.Histories.{record_of};

use byte_fields::{Buffer, put_u8, put_u32};
use entry_codec::{body_len, write};
use no_memory::NoMemory;
use rail_types::Entry;
use std::alloc::Global;

/// The record of an entry: its body's length, the body, and a closed gate.
pub fn record(alloc: Global, entry: &Entry) -> Result<Vec<u8>, NoMemory>
    requires within { IsEntryWithinLimits entry.now }
    requires short { length (body_of entry.now) + 5 < 2 ^ 32 }
    ensures spelled { IfOk result (λ bytes. bytes.items ≡ record_of entry.now) }
    ensures has { OnOk result (HasBody entry.now) }
{
    let mut bytes = Buffer::new(alloc);
    let count = body_len(entry);
    bytes.reserve(count + 5)?;
    put_u32(&mut bytes, count as u32)?;
    write(entry, &mut bytes)?;
    put_u8(&mut bytes, 0)?;
    Ok(bytes.into_vec())
}
