//! The bytes of a command's file.

ghost use Rattle.std.specs.Prelude.{◌≡◌};
ghost use Rattle.command_reports.specs.Refusals.{IsTold, line_with};
ghost use Rattle.command_files.specs.Kinds.{excess_of, head_of, limit_of, status_of};
ghost use Rattle.command_files.specs.Steps.{BytesSay};
ghost use Rattle.command_reports.specs.Scenes.{scene};

use command_reports::exit_status::Status;
use command_reports::file_rounds::{FileFault, read_file};
use command_reports::{Refusal, not_opened, not_read};
use outside_io::Outside;
use rail_types::{MAX_NETWORK_FILE_BYTES, MAX_TIMETABLE_FILE_BYTES};
use std::alloc::Global;

/// A file that a command reads: for contracts.
#[derive(Clone, Copy, Debug, PartialEq, Eq)]
pub enum FileKind {
    Network,
    Base,
    Trains,
}

impl FileKind {
    /// Most bytes of such a file.
    pub fn limit(self) -> u64
        ensures { result ≡ limit_of self }
    {
        match self {
            FileKind::Network => MAX_NETWORK_FILE_BYTES,
            FileKind::Base | FileKind::Trains => MAX_TIMETABLE_FILE_BYTES,
        }
    }

    // The status of a command that refuses such a file.
    fn status(self) -> Status
        ensures { result ≡ status_of self }
    {
        match self {
            FileKind::Network => Status::Network,
            FileKind::Base => Status::Base,
            FileKind::Trains => Status::Trains,
        }
    }

    // What stands before the text of its fault.
    fn head(self) -> &'static [u8]
        ensures { result.now ≡ head_of self }
    {
        match self {
            FileKind::Network => b"network: ",
            FileKind::Base => b"base: ",
            FileKind::Trains => b"trains: ",
        }
    }

    // The text of a file that has too many bytes.
    fn excess(self) -> &'static [u8]
        ensures { result.now ≡ excess_of self }
    {
        match self {
            FileKind::Network => b"limit file 67108865",
            FileKind::Base | FileKind::Trains => b"limit file 16777217",
        }
    }

    /// The refusal of such a file, by the text of its fault.
    pub fn refusal(self, alloc: Global, text: &[u8]) -> Refusal
        ensures { IsTold (status_of self) (line_with (head_of self) text.now) result }
    {
        Refusal::with(alloc, self.status(), self.head(), text)
    }
}

/// Reads a file of this kind as a whole.
pub(crate) fn bytes_of<O: Outside>(
    alloc: Global,
    kind: FileKind,
    name: &str,
    outside: &mut O,
) -> Result<Vec<u8>, Refusal>
    ensures { BytesSay kind O.Src.Source name.now (scene O.Outside outside.old)
        (scene O.Outside outside.new) result }
{
    match read_file(alloc, kind.limit(), name, outside) {
        Ok(bytes) => Ok(bytes),
        Err(FileFault::NotOpened) => Err(not_opened(alloc, name)),
        Err(FileFault::Failed) => Err(not_read(alloc, name)),
        Err(FileFault::TooLong) => Err(kind.refusal(alloc, kind.excess())),
        Err(FileFault::Memory) => Err(Refusal::Memory),
    }
}
