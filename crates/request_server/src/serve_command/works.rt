//! The work of `serve`: reads the three files, and then serves.

ghost use Rattle.request_server.specs.Clienteles.{clientele_of};
ghost use Rattle.request_server.specs.PlannedClients.{AreClients};
ghost use Rattle.command_reports.specs.Scenes.{scene};
ghost use Rattle.request_server.specs.Works.{ReadsBase, ReadsNetwork, ReadsTrains};
ghost use Rattle.served_clients.specs.Files.{IsBaseRead, IsNetworkRead};
ghost use Rattle.served_clients.specs.GivenNames.{names_in};
ghost use Rattle.served_clients.specs.RunGhosts.{run_ghosts};

use crate::serve_command::journals::serve_files;
use admission_rules::Rule;
use admission_rules::client_rules::ClientRules;
use command_files::base::bases_make_timetables;
use command_files::{BaseFile, NetworkFile, read_base_file, read_network_file, read_train_file};
use command_line::client_words::ClientWord;
use command_line::proof_words::ProofWord;
use command_reports::Refusal;
use outside_io::Outside;
use served_clients::RunNames;
use served_clients::serve_reports::Ends;
use served_clients::served_journals::Files;
use std::alloc::AllocGlobal;
use std::sync::Wait;
use std::thread::Threads;

/// The work of `serve`.
pub(crate) fn serve<R: AllocGlobal + Threads + Wait + Sync, O: Outside, L: Rule + Send>(
    rt: &R,
    names: &RunNames<'_>,
    clients: &[ClientWord],
    proofs: &[ProofWord],
    rules: Vec<ClientRules<L>>,
    outside: &mut O,
) -> Result<Ends, Refusal>
    requires clients { AreClients clients.now proofs.now }
    ensures works { ReadsNetwork (run_ghosts O.Src.Source O.Snk.Sink O.Dsk.Disk L.Rule)
        (names_in names.now) (clientele_of clients.now proofs.now rules.items)
        (scene O.Outside outside.old) (scene O.Outside outside.new) result }
{
    let network = read_network_file(rt.alloc(), names.network, outside)?;
    serve_network(rt, network, names, clients, proofs, rules, outside)
}

// The same, once the network is read.
fn serve_network<R: AllocGlobal + Threads + Wait + Sync, O: Outside, L: Rule + Send>(
    rt: &R,
    network: NetworkFile,
    names: &RunNames<'_>,
    clients: &[ClientWord],
    proofs: &[ProofWord],
    rules: Vec<ClientRules<L>>,
    outside: &mut O,
) -> Result<Ends, Refusal>
    requires clients { AreClients clients.now proofs.now }
    requires network { IsNetworkRead network }
    ensures works { ReadsBase (run_ghosts O.Src.Source O.Snk.Sink O.Dsk.Disk L.Rule)
        (names_in names.now) (clientele_of clients.now proofs.now rules.items) network
        (scene O.Outside outside.old) (scene O.Outside outside.new) result }
{
    let base = read_base_file(rt.alloc(), names.base, network.named.network.zones, outside)?;
    serve_base(rt, network, base, names, clients, proofs, rules, outside)
}

// The same, once the base timetable is read.
fn serve_base<R: AllocGlobal + Threads + Wait + Sync, O: Outside, L: Rule + Send>(
    rt: &R,
    network: NetworkFile,
    base: BaseFile,
    names: &RunNames<'_>,
    clients: &[ClientWord],
    proofs: &[ProofWord],
    rules: Vec<ClientRules<L>>,
    outside: &mut O,
) -> Result<Ends, Refusal>
    requires clients { AreClients clients.now proofs.now }
    requires base { IsBaseRead network base }
    ensures works { ReadsTrains (run_ghosts O.Src.Source O.Snk.Sink O.Dsk.Disk L.Rule)
        (names_in names.now) (clientele_of clients.now proofs.now rules.items) network base
        (scene O.Outside outside.old) (scene O.Outside outside.new) result }
{
    bases_make_timetables();
    let trains = read_train_file(rt.alloc(), names.trains, outside)?;
    let files = Files {
        network,
        base,
        trains,
    };
    serve_files(rt, files, names.journal, clients, proofs, rules, outside)
}
