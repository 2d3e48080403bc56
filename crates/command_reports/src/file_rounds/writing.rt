//! A file written as a whole.

ghost use Rattle.command_reports.specs.Scenes.{ChangesOnlyReport, ChangesOnlySink, scene};
ghost use Rattle.command_reports.specs.Writing.{ReportSays, WriteSays};

use outside_io::{Outside, write_all};
use thiserror::Error;

/// Why a file was not written as a whole.
#[derive(Clone, Copy, Debug, PartialEq, Eq, Error)]
pub enum OutFault {
    /// It could not be opened.
    #[error("not opened")]
    NotOpened,
    /// Writing failed.
    #[error("failed")]
    Failed,
}

/// Opens a sink, writes all the bytes to it, and puts it back. Takes no memory.
pub fn write_file<O: Outside>(name: &str, bytes: &[u8], outside: &mut O) -> Result<(), OutFault>
    ensures says { WriteSays O.Snk.Sink name.now bytes.now (scene O.Outside outside.old)
        (scene O.Outside outside.new) result }
    ensures only { ChangesOnlySink name.now (scene O.Outside outside.old)
        (scene O.Outside outside.new) }
{
    let Ok(mut snk) = outside.sink(name) else {
        return Err(OutFault::NotOpened);
    };
    let written = write_all(&mut snk, bytes);
    outside.put_back_sink(name, snk);
    match written {
        Ok(()) => Ok(()),
        Err(_) => Err(OutFault::Failed),
    }
}

/// Opens the report, writes all the bytes to it, and puts it back. Takes no memory.
pub fn write_report<O: Outside>(bytes: &[u8], outside: &mut O) -> Result<(), OutFault>
    ensures says { ReportSays O.Snk.Sink bytes.now (scene O.Outside outside.old)
        (scene O.Outside outside.new) result }
    ensures only { ChangesOnlyReport (scene O.Outside outside.old) (scene O.Outside outside.new) }
{
    let Ok(mut snk) = outside.report() else {
        return Err(OutFault::NotOpened);
    };
    let written = write_all(&mut snk, bytes);
    outside.put_back_report(snk);
    match written {
        Ok(()) => Ok(()),
        Err(_) => Err(OutFault::Failed),
    }
}
