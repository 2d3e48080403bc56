//! The run of `batch`.

ghost use Rattle.std.specs.Prelude.{◌≡◌, ◌≢◌, ℕ, List};
ghost use Rattle.batch_command.specs.GivenBatches.{batch_of};
ghost use Rattle.batch_command.specs.Runs.{EndsRun, IsBatchDone, IsRefusedList, RunsBatch};
ghost use Rattle.command_line.specs.Workers.{AreWorkers, IsBatchClient};
ghost use Rattle.command_reports.specs.Scenes.{scene};
ghost use Rattle.outside_io.specs.Openings.{Undisturbed};
ghost use Rattle.outside_io.specs.Places.{Untouched};
ghost use Rattle.served_clients.specs.GivenNames.{names_in};
ghost use Rattle.served_clients.specs.RunGhosts.{run_ghosts};

use crate::works::batch;
use command_line::client_words::ClientWord;
use command_reports::exit_status::Status;
use command_reports::{Refusal, finish};
use outside_io::Outside;
use served_clients::RunNames;
use served_clients::admission::Rule;
use served_clients::admission::client_rules::ClientRules;
use served_clients::serve_reports::{Ends, tell_ends};
use std::alloc::AllocGlobal;
use std::sync::Wait;
use std::thread::Threads;

/// Runs `batch` over the names of a network's file, a train file, a base timetable's and a journal,
/// the client whose list it is, and so many workers, 1 to 16. It reads the files, opens the
/// journal, opens the source and the sink of the client, reads the list as a whole, has each of its
/// lines answered by one worker, all workers at once, each in a thread where one can be made,
/// writes the replies in the order of the list, puts all back, and reports how many replies were
/// taken, how many lines each worker answered and what its rules were told, or what refused. A
/// worker is the client that its name says, with the rules in the elements with this name, in
/// order; elements with other names are dropped. A line whose number stands in the journal under
/// the name of a worker is answered by the first such one, before all its others; so a list that is
/// answered again grants nothing twice. A list with a line that does not ask, with a number that
/// stands twice, or with a number that stands under the name of a worker that is not there, ends
/// with `No`, the first of these told, and nothing is answered.
pub fn run_batch<R: AllocGlobal + Threads + Wait + Sync, O: Outside, L: Rule + Send>(
    rt: &R,
    names: &RunNames<'_>,
    client: &ClientWord,
    workers: u32,
    rules: Vec<ClientRules<L>>,
    outside: &mut O,
) -> Status
    requires client { IsBatchClient client.now }
    requires workers { AreWorkers workers }
    // All that is done, by the status and the report.
    ensures runs { RunsBatch (run_ghosts O.Src.Source O.Snk.Sink O.Dsk.Disk L.Rule)
        (names_in names.now) (batch_of client.now workers rules.items) (scene O.Outside outside.old)
        (scene O.Outside outside.new) result }
    // At Done each line of the list was answered, and its reply written in the order of the list.
    ensures done { result ≡ Status.Done
        → IsBatchDone (run_ghosts O.Src.Source O.Snk.Sink O.Dsk.Disk L.Rule) (names_in names.now)
        (batch_of client.now workers rules.items) (scene O.Outside outside.old)
        (scene O.Outside outside.new) }
    // At No the list was read, and has a flaw.
    ensures no { result ≡ Status.No → IsRefusedList O.Src.Source O.Dsk.Disk (names_in names.now)
        client.now workers (scene O.Outside outside.old) }
    // At a refusal no sink but the report gained anything.
    ensures clean { result ≢ Status.Done → result ≢ Status.ClientEnd → result ≢ Status.Report
        → result ≢ Status.Memory → Untouched (O.sinks outside.old) (O.sinks outside.new) }
    // Names that are given are never refused as words.
    ensures words { result ≢ Status.Words }
    // Whatever the status, all that was opened is put back, and no other disk changed.
    ensures back { Undisturbed (O.standing outside.old) (O.standing outside.new) }
    ensures disks { (name : List ℕ) → name ≢ names.now.journal.now
        → O.disks outside.new name ≡ O.disks outside.old name }
{
    let outcome = batch(rt, names, client, workers, rules, outside);
    end(outcome, outside)
}

// Reports how the batch ended, or what refused.
fn end<O: Outside>(outcome: Result<Ends, Refusal>, outside: &mut O) -> Status
    ensures ends { EndsRun O.Snk.Sink (scene O.Outside outside.old) (scene O.Outside outside.new)
        outcome result }
{
    match outcome {
        Ok(ends) => tell_ends(&ends, outside),
        Err(refusal) => finish(Err(refusal), outside),
    }
}
