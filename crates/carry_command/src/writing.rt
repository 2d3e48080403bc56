//! What was prepared, written.

ghost use Rattle.std.specs.Prelude.{◌++◌, codes, option_map};
ghost use Rattle.command_reports.specs.declared.exit_status.Status.TheVariants.{Report};
ghost use Rattle.command_reports.specs.Refusals.{IsTold, line_with};
ghost use Rattle.command_reports.specs.Scenes.{scene};
ghost use Rattle.carry_command.specs.Unfinished.{IsMarked};
ghost use Rattle.carry_command.specs.Works.{LeftStep, LinesStep, WritesAll, WritesJournal};

use crate::disks::write_journal;
use crate::names::CarryNames;
use crate::preparing::Prepared;
use command_files::write_out;
use command_reports::Refusal;
use command_reports::exit_status::Status;
use outside_io::Outside;
use rail_types::List;
use std::alloc::Global;

// The file for the lines took a part of them alone.
fn not_whole(alloc: Global, name: &str) -> Refusal
    ensures { IsTold Report (line_with (codes "left: ") name.now) result }
{
    Refusal::with(alloc, Status::Report, b"left: ", name.as_bytes())
}

// Writes lines to a file.
fn write_lines<O: Outside>(
    alloc: Global,
    name: &str,
    lines: &[u8],
    outside: &mut O,
) -> Result<(), Refusal>
    ensures step { LinesStep O.Snk.Sink name.now lines.now (scene O.Outside outside.old)
        (scene O.Outside outside.new) result }
{
    match write_out(alloc, name, lines, outside)? {
        Status::Done => Ok(()),
        _ => Err(not_whole(alloc, name)),
    }
}

// Writes the lines of entries that are left out, where they have a file.
fn write_left<O: Outside>(
    alloc: Global,
    left: Option<&str>,
    lines: &[u8],
    outside: &mut O,
) -> Result<(), Refusal>
    ensures step { LeftStep O.Snk.Sink (option_map (λ name. name.now) left.entry) lines.now
        (scene O.Outside outside.old) (scene O.Outside outside.new) result }
{
    match left {
        None => Ok(()),
        Some(name) => write_lines(alloc, name, lines, outside),
    }
}

/// Writes the lines of entries that are left out, and then the new journal; and gives the line of
/// the report.
pub(crate) fn write_prepared<O: Outside>(
    alloc: Global,
    names: &CarryNames<'_>,
    prepared: Prepared,
    outside: &mut O,
) -> Result<List<u8>, Refusal>
    requires marked { IsMarked prepared.file }
    ensures works { WritesAll O.Snk.Sink O.Dsk.Disk names.now prepared
        (scene O.Outside outside.old) (scene O.Outside outside.new) result }
{
    let Prepared { file, lines, told } = prepared;
    write_left(alloc, names.left(), lines.as_slice(), outside)?;
    write_journal(alloc, names.journal(), file.as_slice(), outside)?;
    Ok(told)
}
