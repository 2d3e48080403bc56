//! Workers that are not there.

ghost use Rattle.std.specs.Prelude.{◌≡◌, ◌≤◌, IfNone, IfOk, IfSome, length};
ghost use Rattle.command_line.specs.declared.batch_words.clients.TheConstants.{
  MAX_BATCH_NAME_BYTES,
};
ghost use Rattle.command_line.specs.declared.batch_words.clients.TheConstants.{MAX_WORKERS};
ghost use Rattle.rail_types.specs.declared.limits.TheConstants.{MAX_OWNER_BYTES};
ghost use Rattle.batch_command.specs.Owners.{AreEnough, IsNeeded, needs};

use crate::worker_numbers::owners::stands;
use command_line::batch_words::{MAX_WORKERS, worker_name};
use no_memory::NoMemory;
use rail_types::Name;
use served_clients::history::History;
use std::alloc::Global;

/// The last worker of a batch, behind the first so many, under whose name one of the numbers of
/// lines stands in the history; None where there is none.
pub fn needed_worker(
    alloc: Global,
    history: &History,
    batch: &Name,
    workers: u32,
    numbers: &[Option<u64>],
) -> Result<Option<u32>, NoMemory>
    requires name { length batch.now ≤ MAX_BATCH_NAME_BYTES }
    requires few { workers ≤ MAX_WORKERS }
    ensures needed { IfOk result (λ needed. IfSome needed
        (IsNeeded history.now.entries batch.now workers numbers.now)) }
    ensures enough { IfOk result (λ needed. IfNone needed
        (AreEnough history.now.entries batch.now workers numbers.now)) }
{
    let mut worker = MAX_WORKERS;
    while workers < worker {
        let owner = worker_name(alloc, batch, worker)?;
        if needs(history, &owner, numbers) {
            return Ok(Some(worker));
        }
        worker -= 1;
    }
    Ok(None)
}

// Whether one of the numbers stands under the owner.
fn needs(history: &History, owner: &Name, numbers: &[Option<u64>]) -> bool
    requires { length owner.now ≤ MAX_OWNER_BYTES }
    ensures { result ≡ needs history.now.entries owner.now numbers.now }
{
    for one in numbers {
        if let Some(number) = *one {
            if stands(history, owner, number) {
                return true;
            }
        }
    }
    false
}
