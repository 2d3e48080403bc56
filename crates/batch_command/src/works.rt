//! The work of `batch`: reads the three files, and then answers the list.

ghost use Rattle.batch_command.specs.GivenBatches.{batch_of};
ghost use Rattle.batch_command.specs.Works.{ReadsBase, ReadsNetwork, ReadsTrains};
ghost use Rattle.command_line.specs.Workers.{AreWorkers, IsBatchClient};
ghost use Rattle.command_reports.specs.Scenes.{scene};
ghost use Rattle.rail_types.specs.Limits.{IsTrainWithinLimits};
ghost use Rattle.served_clients.specs.Files.{IsNetworkRead};
ghost use Rattle.served_clients.specs.GivenNames.{names_in};
ghost use Rattle.served_clients.specs.RunGhosts.{run_ghosts};
ghost use Rattle.std.specs.Prelude.{All};

use crate::journals::serve_files;
use command_files::base::bases_make_timetables;
use command_files::train::Trains;
use command_files::{NetworkFile, read_base_file, read_network_file, read_train_file};
use command_line::client_words::ClientWord;
use command_reports::Refusal;
use outside_io::Outside;
use served_clients::RunNames;
use served_clients::admission::Rule;
use served_clients::admission::client_rules::ClientRules;
use served_clients::serve_reports::Ends;
use served_clients::served_journals::Files;
use std::alloc::AllocGlobal;
use std::sync::Wait;
use std::thread::Threads;

/// The work of `batch`.
pub(crate) fn batch<R: AllocGlobal + Threads + Wait + Sync, O: Outside, L: Rule + Send>(
    rt: &R,
    names: &RunNames<'_>,
    client: &ClientWord,
    workers: u32,
    rules: Vec<ClientRules<L>>,
    outside: &mut O,
) -> Result<Ends, Refusal>
    requires client { IsBatchClient client.now }
    requires workers { AreWorkers workers }
    ensures works { ReadsNetwork (run_ghosts O.Src.Source O.Snk.Sink O.Dsk.Disk L.Rule)
        (names_in names.now) (batch_of client.now workers rules.items) (scene O.Outside outside.old)
        (scene O.Outside outside.new) result }
{
    let network = read_network_file(rt.alloc(), names.network, outside)?;
    batch_network(rt, network, names, client, workers, rules, outside)
}

// The same, once the network is read.
fn batch_network<R: AllocGlobal + Threads + Wait + Sync, O: Outside, L: Rule + Send>(
    rt: &R,
    network: NetworkFile,
    names: &RunNames<'_>,
    client: &ClientWord,
    workers: u32,
    rules: Vec<ClientRules<L>>,
    outside: &mut O,
) -> Result<Ends, Refusal>
    requires client { IsBatchClient client.now }
    requires workers { AreWorkers workers }
    requires network { IsNetworkRead network }
    ensures works { ReadsTrains (run_ghosts O.Src.Source O.Snk.Sink O.Dsk.Disk L.Rule)
        (names_in names.now) (batch_of client.now workers rules.items) network
        (scene O.Outside outside.old) (scene O.Outside outside.new) result }
{
    let trains = read_train_file(rt.alloc(), names.trains, outside)?;
    batch_trains(rt, network, trains, names, client, workers, rules, outside)
}

// The same, once the trains are read.
fn batch_trains<R: AllocGlobal + Threads + Wait + Sync, O: Outside, L: Rule + Send>(
    rt: &R,
    network: NetworkFile,
    trains: Trains,
    names: &RunNames<'_>,
    client: &ClientWord,
    workers: u32,
    rules: Vec<ClientRules<L>>,
    outside: &mut O,
) -> Result<Ends, Refusal>
    requires client { IsBatchClient client.now }
    requires workers { AreWorkers workers }
    requires network { IsNetworkRead network }
    requires trains { All IsTrainWithinLimits trains }
    ensures works { ReadsBase (run_ghosts O.Src.Source O.Snk.Sink O.Dsk.Disk L.Rule)
        (names_in names.now) (batch_of client.now workers rules.items) network trains
        (scene O.Outside outside.old) (scene O.Outside outside.new) result }
{
    bases_make_timetables();
    let base = read_base_file(rt.alloc(), names.base, network.named.network.zones, outside)?;
    let files = Files {
        network,
        base,
        trains,
    };
    serve_files(rt, files, names.journal, client, workers, rules, outside)
}
