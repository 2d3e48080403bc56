//! The work of `init`: reads the network and the base timetable, and then
//! begins a journal, or moves one.

ghost use Rattle.command_reports.specs.Scenes.{scene};
ghost use Rattle.rail_types.specs.Named.{IsNamed};
ghost use Rattle.init_command.specs.Works.{BeginOver, MoveOver, ReadsBase, ReadsBoth};

use crate::beginnings::begin_journal;
use crate::moving::move_journal;
use base_file::bases_make_timetables;
use command_files::{NetworkFile, read_base_file, read_network_file};
use command_reports::Refusal;
use command_reports::exit_status::Status;
use outside_io::Outside;
use std::alloc::Global;

/// The work of `init` of a new journal.
pub(crate) fn begin<O: Outside>(
    alloc: Global,
    network: &str,
    base: &str,
    journal: &str,
    outside: &mut O,
) -> Result<Status, Refusal>
    ensures works { ReadsBoth O.Src.Source network.now base.now (BeginOver O.Dsk.Disk journal.now)
        (scene O.Outside outside.old) (scene O.Outside outside.new) result }
{
    let network = read_network_file(alloc, network, outside)?;
    begin_on(alloc, &network, base, journal, outside)
}

// The same, once the network is read.
fn begin_on<O: Outside>(
    alloc: Global,
    network: &NetworkFile,
    base: &str,
    journal: &str,
    outside: &mut O,
) -> Result<Status, Refusal>
    ensures works { ReadsBase O.Src.Source base.now (BeginOver O.Dsk.Disk journal.now) network.now
        (scene O.Outside outside.old) (scene O.Outside outside.new) result }
{
    let base = read_base_file(alloc, base, network.named.network.zones, outside)?;
    let status = begin_journal(alloc, &network.digest, &base.digest, journal, outside)?;
    Ok(status)
}

/// The work of `init` of a journal that is moved.
pub(crate) fn move_over<O: Outside>(
    alloc: Global,
    network: &str,
    base: &str,
    journal: &str,
    from: &str,
    outside: &mut O,
) -> Result<Status, Refusal>
    ensures works { ReadsBoth O.Src.Source network.now base.now
        (MoveOver O.Dsk.Disk journal.now from.now)
        (scene O.Outside outside.old) (scene O.Outside outside.new) result }
{
    let network = read_network_file(alloc, network, outside)?;
    move_on(alloc, &network, base, journal, from, outside)
}

// The same, once the network is read.
fn move_on<O: Outside>(
    alloc: Global,
    network: &NetworkFile,
    base: &str,
    journal: &str,
    from: &str,
    outside: &mut O,
) -> Result<Status, Refusal>
    requires named { IsNamed network.now.named }
    ensures works { ReadsBase O.Src.Source base.now (MoveOver O.Dsk.Disk journal.now from.now)
        network.now (scene O.Outside outside.old) (scene O.Outside outside.new) result }
{
    bases_make_timetables();
    let base = read_base_file(alloc, base, network.named.network.zones, outside)?;
    let status = move_journal(alloc, network, base, journal, from, outside)?;
    Ok(status)
}
