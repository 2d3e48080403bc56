//! The file that a command writes.

ghost use Rattle.command_files.specs.Outs.{OutStep};
ghost use Rattle.command_reports.specs.Scenes.{scene};

use command_reports::exit_status::Status;
use command_reports::file_rounds::{OutFault, write_file};
use command_reports::{Refusal, not_opened};
use outside_io::Outside;
use std::alloc::Global;

/// Opens a sink, writes all the bytes to it, and puts it back. The status is `Done`, or `Report`
/// where writing failed; a name that could not be opened refuses, as `open: NAME`.
pub fn write_out<O: Outside>(
    alloc: Global,
    name: &str,
    bytes: &[u8],
    outside: &mut O,
) -> Result<Status, Refusal>
    ensures step { OutStep O.Snk.Sink name.now bytes.now (scene O.Outside outside.old)
        (scene O.Outside outside.new) result }
{
    match write_file(name, bytes, outside) {
        Ok(()) => Ok(Status::Done),
        Err(OutFault::Failed) => Ok(Status::Report),
        Err(OutFault::NotOpened) => Err(not_opened(alloc, name)),
    }
}
