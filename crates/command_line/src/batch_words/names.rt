//! The names of a batch's workers.

ghost use Rattle.std.specs.Prelude.{◌≡◌, ◌≤◌, IfOk};
ghost use Rattle.command_line.specs.Workers.{worker_name as name_of_worker};
ghost use Rattle.command_line.specs.Workers.{worker_names as names_of_workers};

use crate::batch_words::clients::MAX_WORKERS;
use no_memory::NoMemory;
use rail_types::{List, Name};
use std::alloc::Global;

/// The name of the client that a worker is: the batch's name, `_`, and the
/// worker's number in two digits.
pub fn worker_name(alloc: Global, name: &Name, worker: u32) -> Result<Name, NoMemory>
    requires few { worker ≤ MAX_WORKERS }
    ensures { IfOk result (λ client. client ≡ name_of_worker name.now worker) }
{
    let mut bytes = Vec::from_slice(alloc, name.as_bytes())?;
    bytes.push(b'_')?;
    bytes.push(b'0' + (worker / 10) as u8)?;
    bytes.push(b'0' + (worker % 10) as u8)?;
    Name::from_bytes(alloc, bytes.as_slice())
}

/// The names of the clients that so many workers are, numbered from 1, in order.
pub fn worker_names(alloc: Global, name: &Name, workers: u32) -> Result<List<Name>, NoMemory>
    requires few { workers ≤ MAX_WORKERS }
    ensures { IfOk result (λ names. names ≡ names_of_workers name.now workers) }
{
    let mut names = List::new(alloc);
    for worker in 0..workers {
        names.push(worker_name(alloc, name, worker + 1)?)?;
    }
    Ok(names)
}
