//! The worker whose a number is.

ghost use Rattle.std.specs.Prelude.{◌≡◌, ◌≤◌, All, IfOk, length};
ghost use Rattle.command_line.specs.declared.batch_words.clients.TheConstants.{MAX_WORKERS};
ghost use Rattle.rail_types.specs.declared.limits.TheConstants.{MAX_OWNER_BYTES};
ghost use Rattle.batch_command.specs.Owners.{owner_from, owner_of, owners_of, stands};

use no_memory::NoMemory;
use rail_types::{Deed, Name};
use served_clients::history::History;
use std::alloc::Global;

/// For each number of a line the first of the workers, counted from 0, under whose name it stands
/// in the history; None where it stands under none, and for a line without a number.
pub fn owners_of(
    alloc: Global,
    history: &History,
    workers: &[Name],
    numbers: &[Option<u64>],
) -> Result<Vec<Option<u32>>, NoMemory>
    requires names { All (λ name. length name ≤ MAX_OWNER_BYTES) workers.now }
    requires few { length workers.now ≤ MAX_WORKERS }
    ensures { IfOk result (λ owners.
        owners.items ≡ owners_of history.now.entries workers.now numbers.now) }
{
    let mut owners = Vec::new(alloc);
    for number in numbers {
        owners.push(owner_of(history, workers, *number))?;
    }
    Ok(owners)
}

// The first of the workers under whose name the number of a line stands.
fn owner_of(history: &History, workers: &[Name], number: Option<u64>) -> Option<u32>
    requires names { All (λ name. length name ≤ MAX_OWNER_BYTES) workers.now }
    requires few { length workers.now ≤ MAX_WORKERS }
    ensures { result ≡ owner_of history.now.entries workers.now number }
{
    let Some(number) = number else {
        return None;
    };
    first_owner(history, workers, number)
}

fn first_owner(history: &History, workers: &[Name], number: u64) -> Option<u32>
    requires names { All (λ name. length name ≤ MAX_OWNER_BYTES) workers.now }
    requires few { length workers.now ≤ MAX_WORKERS }
    ensures { result ≡ owner_from history.now.entries 0 workers.now number }
{
    let mut at = 0;
    for worker in workers {
        if stands(history, worker, number) {
            return Some(at);
        }
        at += 1;
    }
    None
}

/// Whether the number stands under the owner: then something is told
/// again, whatever is sent with it.
pub(crate) fn stands(history: &History, owner: &Name, number: u64) -> bool
    requires { length owner.now ≤ MAX_OWNER_BYTES }
    ensures { result ≡ stands history.now.entries owner.now number }
{
    history.told_again(owner, number, &Deed::Free(0)).is_some()
}
