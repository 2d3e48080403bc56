//! The work of `capacity`: reads the history of a journal, and writes the capacity of a stretch.

ghost use Rattle.std.specs.Prelude.{◌<◌};
ghost use Rattle.command_reports.specs.Scenes.{scene};
ghost use Rattle.print_commands.specs.Steps.{Prints, ReadsHistory, WritesTold};
ghost use Rattle.print_commands.specs.Capacities.{TellsCapacity};

use crate::capacity_command::texts::text_of;
use crate::read_history_files;
use capacity_406::Stretch;
use command_files::write_out;
use command_reports::Refusal;
use command_reports::exit_status::Status;
use grant_log::History;
use outside_io::Outside;
use std::alloc::Global;

/// Reads the history of a journal, and writes the capacity of a stretch once nothing else refuses.
pub(crate) fn work<O: Outside>(
    alloc: Global,
    network: &str,
    base: &str,
    journal: &str,
    stretch: &Stretch,
    out: &str,
    outside: &mut O,
) -> Result<Status, Refusal>
    requires window { stretch.now.from < stretch.now.to }
    ensures works { Prints O.Snk.Sink
        (ReadsHistory O.Src.Source O.Dsk.Disk network.now base.now journal.now) out.now
        (TellsCapacity stretch.now) (scene O.Outside outside.old) (scene O.Outside outside.new)
        result }
{
    let history = read_history_files(alloc, network, base, journal, outside)?;
    write_text(alloc, &history, stretch, out, outside)
}

// Writes the capacity of a stretch.
fn write_text<O: Outside>(
    alloc: Global,
    history: &History,
    stretch: &Stretch,
    out: &str,
    outside: &mut O,
) -> Result<Status, Refusal>
    requires window { stretch.now.from < stretch.now.to }
    ensures writes { WritesTold O.Snk.Sink out.now (TellsCapacity stretch.now) history.now
        (scene O.Outside outside.old) (scene O.Outside outside.new) result }
{
    let text = text_of(alloc, history, stretch)?;
    let status = write_out(alloc, out, &text, outside)?;
    Ok(status)
}
