//! Refusals of the journal and of its disk.

ghost use Rattle.served_clients.specs.ServedJournals.{TellsOpen};

use command_reports::exit_status::Status;
use command_reports::{Refusal, disk_failed};
use no_memory::NoMemory;
use path_recover::{OpenFault, fault_text};
use std::alloc::Global;

/// A journal that was not opened, by its line.
pub(crate) fn journal_refusal(alloc: Global, name: &str, fault: &OpenFault) -> Refusal
    ensures { TellsOpen name.now fault.now result }
{
    if matches!(fault, OpenFault::ReadFault) {
        return disk_failed(alloc, name);
    }
    match fault_text(alloc, fault) {
        Ok(Some(text)) => Refusal::with(alloc, Status::Journal, b"journal: ", text.as_slice()),
        Ok(None) | Err(NoMemory) => Refusal::Memory,
    }
}
