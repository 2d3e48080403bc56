//! Why a journal's disk was refused, as a line and a status.

ghost use Rattle.std.specs.Prelude.{codes};
ghost use Rattle.command_reports.specs.declared.exit_status.Status.TheVariants.{Journal};
ghost use Rattle.command_reports.specs.Refusals.{IsTold, line_with};
ghost use Rattle.init_command.specs.Begins.{TellsInit};
ghost use Rattle.init_command.specs.Moves.{TellsFrom};
ghost use Rattle.path_recover.specs.Texts.{not_empty_text as text_of_len};

use command_reports::exit_status::Status;
use command_reports::{Refusal, disk_failed};
use no_memory::NoMemory;
use path_recover::{InitFault, OpenFault, fault_text, not_empty_text};
use std::alloc::Global;

/// The disk of the new journal has so many bytes.
pub(crate) fn not_empty(alloc: Global, len: u64) -> Refusal
    ensures { IsTold Journal (line_with (codes "journal: ") (text_of_len len)) result }
{
    match not_empty_text(alloc, len) {
        Ok(text) => Refusal::with(alloc, Status::Journal, b"journal: ", text.as_slice()),
        Err(NoMemory) => Refusal::Memory,
    }
}

/// The disk of the new journal was refused.
pub fn init_refusal(alloc: Global, name: &str, fault: InitFault) -> Refusal
    ensures { TellsInit name.now fault result }
{
    match fault {
        InitFault::NotEmpty { len } => not_empty(alloc, len),
        InitFault::Fault => disk_failed(alloc, name),
    }
}

/// The old journal was refused.
pub fn from_refusal(alloc: Global, from: &str, fault: OpenFault) -> Refusal
    ensures { TellsFrom from.now fault result }
{
    if matches!(fault, OpenFault::ReadFault) {
        return disk_failed(alloc, from);
    }
    match fault_text(alloc, &fault) {
        Ok(Some(text)) => Refusal::with(alloc, Status::Journal, b"from: ", text.as_slice()),
        Ok(None) | Err(NoMemory) => Refusal::Memory,
    }
}
