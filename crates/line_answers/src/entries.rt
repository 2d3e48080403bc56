//! The entries that lines ask for.
ghost use Rattle.std.specs.Prelude.{◌≡◌, IfOk};

use ask_turns::client_turns::Client;
use no_memory::NoMemory;
use rail_types::{Deed, Entry};
use std::alloc::Global;

// The client's entry with this number and deed, for the line of that number.
#[inline(always)]
pub(crate) fn entry_of(
    alloc: Global,
    client: &Client,
    line_number: u32,
    number: u64,
    deed: Deed,
) -> Result<Entry, NoMemory>
    ensures { IfOk result (λ entry. entry ≡ record {
      owner = client.now.name;
      number = number;
      line = line_number;
      deed = deed;
    }) }
{
    let owner = client.name().copy(alloc)?;
    Ok(Entry {
        owner,
        number,
        line: line_number,
        deed,
    })
}
