//! The journal of a run.

ghost use Rattle.request_server.specs.Clienteles.{clientele_of};
ghost use Rattle.request_server.specs.PlannedClients.{AreClients, client_calls};
ghost use Rattle.command_reports.specs.Works.{KeepsTo};
ghost use Rattle.command_reports.specs.Scenes.{scene};
ghost use Rattle.request_server.specs.ServeJournals.{DiskSays, ServeStep};
ghost use Rattle.served_clients.specs.Files.{AreFiles};
ghost use Rattle.served_clients.specs.RunGhosts.{run_ghosts};

use crate::serve_command::books::serve_book;
use admission_rules::Rule;
use admission_rules::client_rules::ClientRules;
use command_line::client_words::ClientWord;
use command_line::proof_words::ProofWord;
use command_reports::{Refusal, not_opened};
use outside_io::Outside;
use served_clients::serve_reports::Ends;
use served_clients::served_journals::{Files, Opened, open_book};
use std::alloc::AllocGlobal;
use std::sync::Wait;
use std::thread::Threads;

/// Opens the disk of the journal, serves the clients over it, and puts it back.
pub(crate) fn serve_files<R: AllocGlobal + Threads + Wait + Sync, O: Outside, L: Rule + Send>(
    rt: &R,
    files: Files,
    journal: &str,
    clients: &[ClientWord],
    proofs: &[ProofWord],
    rules: Vec<ClientRules<L>>,
    outside: &mut O,
) -> Result<Ends, Refusal>
    requires clients { AreClients clients.now proofs.now }
    requires files { AreFiles files }
    ensures step { ServeStep (run_ghosts O.Src.Source O.Snk.Sink O.Dsk.Disk L.Rule) files
        journal.now
        (clientele_of clients.now proofs.now rules.items) (scene O.Outside outside.old)
        (scene O.Outside outside.new) result }
{
    let Ok(disk) = outside.disk(journal) else {
        return Err(not_opened(rt.alloc(), journal));
    };
    let (disk, outcome) = serve_disk(rt, disk, files, journal, clients, proofs, rules, outside);
    outside.put_back_disk(journal, disk);
    outcome
}

// Opens the journal on a disk, serves the clients over it, and hands the disk back.
fn serve_disk<R: AllocGlobal + Threads + Wait + Sync, O: Outside, L: Rule + Send>(
    rt: &R,
    disk: O::Dsk,
    files: Files,
    journal: &str,
    clients: &[ClientWord],
    proofs: &[ProofWord],
    rules: Vec<ClientRules<L>>,
    outside: &mut O,
) -> (O::Dsk, Result<Ends, Refusal>)
    requires clients { AreClients clients.now proofs.now }
    requires files { AreFiles files }
    ensures says { DiskSays (run_ghosts O.Src.Source O.Snk.Sink O.Dsk.Disk L.Rule) files journal.now
        (clientele_of clients.now proofs.now rules.items) disk result.0
        (scene O.Outside outside.old) (scene O.Outside outside.new) result.1 }
    ensures keeps { KeepsTo (client_calls clients.now proofs.now) (scene O.Outside outside.old)
        (scene O.Outside outside.new) result.1 }
{
    match open_book(rt.alloc(), disk, files, journal) {
        Ok(opened) => {
            let Opened {
                book,
                named,
                trains,
            } = opened;
            serve_book(rt, book, named, trains, clients, proofs, rules, outside)
        }
        Err((disk, refusal)) => (disk, Err(refusal)),
    }
}
