//! The work of `stairs`: reads the history of a journal, and writes the stairway of an entry.

ghost use Rattle.command_reports.specs.Scenes.{scene};
ghost use Rattle.print_commands.specs.Steps.{Prints, ReadsHistory, WritesTold};
ghost use Rattle.print_commands.specs.Tables.{TellsStairs};

use crate::read_history_files;
use crate::stairs_command::tables::table_of;
use command_files::write_out;
use command_reports::Refusal;
use command_reports::exit_status::Status;
use grant_log::History;
use outside_io::Outside;
use std::alloc::Global;

/// Reads the history of a journal, and writes the stairway of an entry once nothing else refuses.
pub(crate) fn work<O: Outside>(
    alloc: Global,
    network: &str,
    base: &str,
    journal: &str,
    entry: u64,
    out: &str,
    outside: &mut O,
) -> Result<Status, Refusal>
    ensures works { Prints O.Snk.Sink
        (ReadsHistory O.Src.Source O.Dsk.Disk network.now base.now journal.now) out.now
        (TellsStairs entry) (scene O.Outside outside.old) (scene O.Outside outside.new) result }
{
    let history = read_history_files(alloc, network, base, journal, outside)?;
    write_table(alloc, &history, entry, out, outside)
}

// Writes the stairway of an entry.
fn write_table<O: Outside>(
    alloc: Global,
    history: &History,
    entry: u64,
    out: &str,
    outside: &mut O,
) -> Result<Status, Refusal>
    ensures writes { WritesTold O.Snk.Sink out.now (TellsStairs entry) history.now
        (scene O.Outside outside.old) (scene O.Outside outside.new) result }
{
    let table = table_of(alloc, history, entry)?;
    let status = write_out(alloc, out, &table, outside)?;
    Ok(status)
}
