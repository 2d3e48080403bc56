//! The three files of a history.

ghost use Rattle.command_reports.specs.Scenes.{scene};
ghost use Rattle.rail_types.specs.Named.{IsNamed};
ghost use Rattle.print_commands.specs.Steps.{ReadsHistory, ReadsOn};

use crate::journals::read_journal_file;
use command_files::base::bases_make_timetables;
use command_files::{NetworkFile, read_base_file, read_network_file};
use command_reports::Refusal;
use grant_log::History;
use outside_io::Outside;
use std::alloc::Global;

/// Opens and reads a network's file, then a base timetable's, and then the journal of both, each
/// once. The first that refuses ends it.
pub fn read_history_files<O: Outside>(
    alloc: Global,
    network: &str,
    base: &str,
    journal: &str,
    outside: &mut O,
) -> Result<History, Refusal>
    ensures works { ReadsHistory O.Src.Source O.Dsk.Disk network.now base.now journal.now
        (scene O.Outside outside.old) (scene O.Outside outside.new) result }
{
    let network = read_network_file(alloc, network, outside)?;
    read_on(alloc, network, base, journal, outside)
}

// The same, once the network is read.
fn read_on<O: Outside>(
    alloc: Global,
    network: NetworkFile,
    base: &str,
    journal: &str,
    outside: &mut O,
) -> Result<History, Refusal>
    requires named { IsNamed network.named }
    ensures works { ReadsOn O.Src.Source O.Dsk.Disk base.now journal.now network
        (scene O.Outside outside.old) (scene O.Outside outside.new) result }
{
    bases_make_timetables();
    let base = read_base_file(alloc, base, network.named.network.zones, outside)?;
    read_journal_file(alloc, network, base, journal, outside)
}
