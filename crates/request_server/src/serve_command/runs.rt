//! The run of `serve`.

ghost use Rattle.std.specs.Prelude.{◌≡◌, ◌≢◌, ℕ, List};
ghost use Rattle.request_server.specs.Clienteles.{clientele_of};
ghost use Rattle.request_server.specs.PlannedClients.{AreClients};
ghost use Rattle.command_reports.specs.Scenes.{scene};
ghost use Rattle.outside_io.specs.Openings.{Undisturbed};
ghost use Rattle.outside_io.specs.Places.{Untouched};
ghost use Rattle.request_server.specs.ServeRuns.{EndsRun, IsServed, RunsServe};
ghost use Rattle.served_clients.specs.GivenNames.{names_in};
ghost use Rattle.served_clients.specs.RunGhosts.{run_ghosts};

use crate::serve_command::works::serve;
use admission_rules::Rule;
use admission_rules::client_rules::ClientRules;
use command_line::client_words::ClientWord;
use command_line::proof_words::ProofWord;
use command_reports::exit_status::Status;
use command_reports::{Refusal, finish};
use outside_io::Outside;
use served_clients::RunNames;
use served_clients::serve_reports::{Ends, tell_ends};
use std::alloc::AllocGlobal;
use std::sync::Wait;
use std::thread::Threads;

/// Runs `serve` over the names of a network's file, a train file, a base timetable's and a journal,
/// 1 to 16 clients, files for the proofs of some of them, and rules of clients. It reads the files,
/// opens the journal, opens the source and the sink of each client and the file of its proofs if it
/// has one, answers the lines of all clients at once, each in a thread where one can be made, puts
/// all back, and reports how each client's session ended and what its rules were told, or what
/// refused. To the file of a client goes the text of each proof that comes along with a reply to
/// it, before the reply. The rules of a client are those in the elements with its name, in order;
/// elements with other names are dropped.
pub fn run_serve<R: AllocGlobal + Threads + Wait + Sync, O: Outside, L: Rule + Send>(
    rt: &R,
    names: &RunNames<'_>,
    clients: &[ClientWord],
    proofs: &[ProofWord],
    rules: Vec<ClientRules<L>>,
    outside: &mut O,
) -> Status
    requires clients { AreClients clients.now proofs.now }
    // All that is done, by the status and the report.
    ensures runs { RunsServe (run_ghosts O.Src.Source O.Snk.Sink O.Dsk.Disk L.Rule)
        (names_in names.now) (clientele_of clients.now proofs.now rules.items)
        (scene O.Outside outside.old) (scene O.Outside outside.new) result }
    // At Done each line of each client was answered, with its proofs where they are wanted, and a
    // line for each client and for each of its rules was reported.
    ensures done { result ≡ Status.Done
        → IsServed (run_ghosts O.Src.Source O.Snk.Sink O.Dsk.Disk L.Rule) (names_in names.now)
        (clientele_of clients.now proofs.now rules.items) (scene O.Outside outside.old)
        (scene O.Outside outside.new) }
    // At a refusal no sink but the report gained anything.
    ensures clean { result ≢ Status.Done → result ≢ Status.ClientEnd → result ≢ Status.Report
        → result ≢ Status.Memory → Untouched (O.sinks outside.old) (O.sinks outside.new) }
    // Names that are given are never refused as words.
    ensures words { result ≢ Status.Words }
    // Whatever the status, all that was opened is put back, and no other disk changed.
    ensures back { Undisturbed (O.standing outside.old) (O.standing outside.new) }
    ensures disks { (name : List ℕ) → name ≢ names.now.journal.now
        → O.disks outside.new name ≡ O.disks outside.old name }
{
    let outcome = serve(rt, names, clients, proofs, rules, outside);
    end(outcome, outside)
}

// Reports how the clients ended, or what refused.
fn end<O: Outside>(outcome: Result<Ends, Refusal>, outside: &mut O) -> Status
    ensures ends { EndsRun O.Snk.Sink (scene O.Outside outside.old) (scene O.Outside outside.new)
        outcome result }
{
    match outcome {
        Ok(ends) => tell_ends(&ends, outside),
        Err(refusal) => finish(Err(refusal), outside),
    }
}
