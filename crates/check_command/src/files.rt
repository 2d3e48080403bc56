//! The bytes of the file of proofs.

ghost use Rattle.std.specs.Prelude.{◌≤◌, IfOk, length};
ghost use Rattle.check_command.specs.Files.{ProofFileStep};
ghost use Rattle.command_reports.specs.Reading.{ReadSays};
ghost use Rattle.command_reports.specs.Scenes.{ChangesOnlySource, scene};
ghost use Rattle.proof_texts.specs.declared.reading.TheConstants.{
  MAX_PROOF_FILE_BYTES as most_bytes,
};

use command_reports::exit_status::Status;
use command_reports::file_rounds::FileFault;
use command_reports::{Refusal, not_opened, not_read};
use outside_io::{AllFault, Outside, read_all};
use proof_texts::MAX_PROOF_FILE_BYTES;
use std::alloc::Global;

// Opens a source, reads it to its end, and puts it back; its bytes are no more
// than a file of proofs may have.
fn bytes_of<O: Outside>(alloc: Global, name: &str, outside: &mut O) -> Result<Vec<u8>, FileFault>
    ensures says { ReadSays O.Src.Source most_bytes name.now (scene O.Outside outside.old)
        (scene O.Outside outside.new) result }
    ensures only { ChangesOnlySource name.now (scene O.Outside outside.old)
        (scene O.Outside outside.new) }
    ensures short { IfOk result (λ bytes. length bytes.items ≤ most_bytes) }
{
    let Ok(mut src) = outside.source(name) else {
        return Err(FileFault::NotOpened);
    };
    let bytes = read_all(alloc, &mut src, MAX_PROOF_FILE_BYTES as u64);
    outside.put_back_source(name, src);
    match bytes {
        Ok(bytes) => Ok(bytes),
        Err(AllFault::Failed) => Err(FileFault::Failed),
        Err(AllFault::TooLong) => Err(FileFault::TooLong),
        Err(AllFault::Memory) => Err(FileFault::Memory),
    }
}

/// Opens a file of proofs, reads it as a whole, and puts it back. A name that could not be
/// opened refuses as `open: NAME`, one that failed as `read: NAME`, and a file of too many
/// bytes as `proof file too long`.
pub(crate) fn read_proof_file<O: Outside>(
    alloc: Global,
    name: &str,
    outside: &mut O,
) -> Result<Vec<u8>, Refusal>
    ensures step { ProofFileStep O.Src.Source name.now (scene O.Outside outside.old)
        (scene O.Outside outside.new) result }
    ensures short { IfOk result (λ bytes. length bytes.items ≤ most_bytes) }
{
    match bytes_of(alloc, name, outside) {
        Ok(bytes) => Ok(bytes),
        Err(FileFault::NotOpened) => Err(not_opened(alloc, name)),
        Err(FileFault::Failed) => Err(not_read(alloc, name)),
        Err(FileFault::TooLong) => Err(Refusal::with(
            alloc,
            Status::No,
            b"proof ",
            b"file too long",
        )),
        Err(FileFault::Memory) => Err(Refusal::Memory),
    }
}
