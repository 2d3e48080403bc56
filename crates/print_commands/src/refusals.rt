//! Refusals of journals.

ghost use Rattle.print_commands.specs.Journals.{TellsOpen};

use command_reports::exit_status::Status;
use command_reports::{Refusal, disk_failed};
use no_memory::NoMemory;
use path_recover::{OpenFault, fault_text};
use std::alloc::Global;

/// Why the journal under a name was refused, by its line.
pub(crate) fn journal_refusal(alloc: Global, name: &str, fault: OpenFault) -> Refusal
    ensures { TellsOpen name.now fault result }
{
    if matches!(fault, OpenFault::ReadFault) {
        return disk_failed(alloc, name);
    }
    match fault_text(alloc, &fault) {
        Ok(Some(text)) => Refusal::with(alloc, Status::Journal, b"journal: ", text.as_slice()),
        Ok(None) | Err(NoMemory) => Refusal::Memory,
    }
}
