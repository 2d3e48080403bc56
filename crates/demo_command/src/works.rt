//! The work of `demo`: holds the session in memory, and writes its line.

ghost use Rattle.command_reports.specs.Scenes.{scene};
ghost use Rattle.demo_command.specs.Works.{DemoWorks};

use crate::sessions::line_of;
use command_files::write_out;
use command_reports::Refusal;
use command_reports::exit_status::Status;
use outside_io::Outside;
use std::alloc::AllocGlobal;
use std::sync::Wait;
use std::thread::Threads;

/// Holds the session, and writes its line once nothing else refuses.
pub(crate) fn work<R: AllocGlobal + Threads + Wait + Sync, O: Outside>(
    rt: &R,
    number: u32,
    out: &str,
    outside: &mut O,
) -> Result<Status, Refusal>
    ensures works { DemoWorks O.Snk.Sink number out.now (scene O.Outside outside.old)
        (scene O.Outside outside.new) result }
{
    let line = line_of(rt, number)?;
    let status = write_out(rt.alloc(), out, &line, outside)?;
    Ok(status)
}
