//! The work of `carry`: reads all that it names, and writes what is carried.

ghost use Rattle.command_reports.specs.Scenes.{scene};
ghost use Rattle.command_files.specs.Timetables.{timetable_on};
ghost use Rattle.rail_types.specs.Named.{IsNamed};
ghost use Rattle.rail_types.specs.Timetables.{IsTimetable};
ghost use Rattle.carry_command.specs.Works.{FindsEmpty, ReadsBase, ReadsBefore, ReadsNetwork};

use crate::before::read_before;
use crate::disks::find_empty;
use crate::names::CarryNames;
use crate::olds::carry_from;
use command_files::base::bases_make_timetables;
use command_files::{BaseFile, NetworkFile, read_base_file, read_network_file};
use command_reports::Refusal;
use outside_io::Outside;
use rail_types::List;
use std::alloc::Global;

/// Reads all that the command names, in order, and writes what is carried.
pub(crate) fn work<O: Outside>(
    alloc: Global,
    names: &CarryNames<'_>,
    outside: &mut O,
) -> Result<List<u8>, Refusal>
    ensures works { ReadsNetwork O.Src.Source O.Snk.Sink O.Dsk.Disk names.now
        (scene O.Outside outside.old) (scene O.Outside outside.new) result }
{
    let network = read_network_file(alloc, names.network(), outside)?;
    work_on(alloc, names, &network, outside)
}

// The same, once the network is read.
fn work_on<O: Outside>(
    alloc: Global,
    names: &CarryNames<'_>,
    network: &NetworkFile,
    outside: &mut O,
) -> Result<List<u8>, Refusal>
    requires named { IsNamed network.now.named }
    ensures works { ReadsBase O.Src.Source O.Snk.Sink O.Dsk.Disk names.now network.now
        (scene O.Outside outside.old) (scene O.Outside outside.new) result }
{
    bases_make_timetables();
    let base = read_base_file(alloc, names.base(), network.named.network.zones, outside)?;
    work_with(alloc, names, network, base, outside)
}

// The same, once the base timetable is read.
fn work_with<O: Outside>(
    alloc: Global,
    names: &CarryNames<'_>,
    network: &NetworkFile,
    base: BaseFile,
    outside: &mut O,
) -> Result<List<u8>, Refusal>
    requires named { IsNamed network.now.named }
    requires timetable { IsTimetable (timetable_on network.now base) }
    ensures works { ReadsBefore O.Src.Source O.Snk.Sink O.Dsk.Disk names.now network.now base
        (scene O.Outside outside.old) (scene O.Outside outside.new) result }
{
    bases_make_timetables();
    let before = read_before(
        alloc,
        names.from_base(),
        network.named.network.zones,
        outside,
    )?;
    look_first(alloc, names, network, base, before, outside)
}

// The same, once the base timetable of before is read.
fn look_first<O: Outside>(
    alloc: Global,
    names: &CarryNames<'_>,
    network: &NetworkFile,
    base: BaseFile,
    before: BaseFile,
    outside: &mut O,
) -> Result<List<u8>, Refusal>
    requires timetable { IsTimetable (timetable_on network.now base) }
    requires before { IsTimetable (timetable_on network.now before) }
    ensures works { FindsEmpty O.Snk.Sink O.Dsk.Disk names.now network.now base before
        (scene O.Outside outside.old) (scene O.Outside outside.new) result }
{
    find_empty(alloc, names.journal(), outside)?;
    carry_from(alloc, names, network, base, before, outside)
}
