//! A file read as a whole.

ghost use Rattle.command_reports.specs.Reading.{ReadSays};
ghost use Rattle.command_reports.specs.Scenes.{ChangesOnlySource, scene};

use outside_io::{AllFault, Outside, read_all};
use std::alloc::Global;
use thiserror::Error;

/// Why a file was not read.
#[derive(Clone, Copy, Debug, PartialEq, Eq, Error)]
pub enum FileFault {
    /// Its name could not be opened.
    #[error("not opened")]
    NotOpened,
    /// Reading failed.
    #[error("failed")]
    Failed,
    /// It has more bytes than were asked for.
    #[error("too long")]
    TooLong,
    /// Memory was wanted.
    #[error("no memory")]
    Memory,
}

/// Opens a source, reads it to its end, and puts it back.
pub fn read_file<O: Outside>(
    alloc: Global,
    limit: u64,
    name: &str,
    outside: &mut O,
) -> Result<Vec<u8>, FileFault>
    ensures says { ReadSays O.Src.Source limit name.now (scene O.Outside outside.old)
        (scene O.Outside outside.new) result }
    ensures only { ChangesOnlySource name.now (scene O.Outside outside.old)
        (scene O.Outside outside.new) }
{
    let Ok(mut src) = outside.source(name) else {
        return Err(FileFault::NotOpened);
    };
    let bytes = read_all(alloc, &mut src, limit);
    outside.put_back_source(name, src);
    match bytes {
        Ok(bytes) => Ok(bytes),
        Err(AllFault::Failed) => Err(FileFault::Failed),
        Err(AllFault::TooLong) => Err(FileFault::TooLong),
        Err(AllFault::Memory) => Err(FileFault::Memory),
    }
}
