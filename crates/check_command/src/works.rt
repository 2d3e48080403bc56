//! The work of `check`: reads the files, and then the journal and the proofs.

ghost use Rattle.command_reports.specs.Scenes.{scene};
ghost use Rattle.rail_types.specs.Named.{IsNamed};
ghost use Rattle.check_command.specs.Works.{AreRead, ReadsBase, ReadsNetwork, ReadsTrains};

use crate::journals::check_journal;
use command_files::train::Trains;
use command_files::{NetworkFile, read_base_file, read_network_file, read_train_file};
use command_reports::Refusal;
use outside_io::Outside;
use rail_types::List;
use std::alloc::Global;

/// Reads all that the command names, in order, and tells the line that is
/// reported where all proofs hold.
pub(crate) fn work<O: Outside>(
    alloc: Global,
    network: &str,
    trains: &str,
    base: &str,
    journal: &str,
    proof: &str,
    outside: &mut O,
) -> Result<List<u8>, Refusal>
    ensures works { ReadsNetwork O.Src.Source O.Dsk.Disk network.now trains.now base.now
        journal.now proof.now (scene O.Outside outside.old) (scene O.Outside outside.new) result }
{
    let network = read_network_file(alloc, network, outside)?;
    check_network(alloc, network, trains, base, journal, proof, outside)
}

// The same, once the network is read.
fn check_network<O: Outside>(
    alloc: Global,
    network: NetworkFile,
    trains: &str,
    base: &str,
    journal: &str,
    proof: &str,
    outside: &mut O,
) -> Result<List<u8>, Refusal>
    requires named { IsNamed network.named }
    ensures works { ReadsTrains O.Src.Source O.Dsk.Disk trains.now base.now journal.now proof.now
        network (scene O.Outside outside.old) (scene O.Outside outside.new) result }
{
    let trains = read_train_file(alloc, trains, outside)?;
    check_trains(alloc, network, trains, base, journal, proof, outside)
}

// The same, once the trains are read.
fn check_trains<O: Outside>(
    alloc: Global,
    network: NetworkFile,
    trains: Trains,
    base: &str,
    journal: &str,
    proof: &str,
    outside: &mut O,
) -> Result<List<u8>, Refusal>
    requires read { AreRead network trains }
    ensures works { ReadsBase O.Src.Source O.Dsk.Disk base.now journal.now proof.now network trains
        (scene O.Outside outside.old) (scene O.Outside outside.new) result }
{
    let base = read_base_file(alloc, base, network.named.network.zones, outside)?;
    check_journal(alloc, network, trains, base, journal, proof, outside)
}
