//! The journal of a run.

ghost use Rattle.batch_command.specs.GivenBatches.{batch_of};
ghost use Rattle.batch_command.specs.Journals.{BatchStep, DiskSays};
ghost use Rattle.command_line.specs.Workers.{AreWorkers, IsBatchClient};
ghost use Rattle.served_clients.specs.StreamClients.{pair_calls};
ghost use Rattle.command_reports.specs.Works.{KeepsTo};
ghost use Rattle.command_reports.specs.Scenes.{scene};
ghost use Rattle.served_clients.specs.Files.{AreFiles};
ghost use Rattle.served_clients.specs.RunGhosts.{run_ghosts};

use crate::books::serve_book;
use command_line::client_words::ClientWord;
use command_reports::{Refusal, not_opened};
use outside_io::Outside;
use served_clients::admission::Rule;
use served_clients::admission::client_rules::ClientRules;
use served_clients::serve_reports::Ends;
use served_clients::served_journals::{Files, Opened, open_book};
use std::alloc::AllocGlobal;
use std::sync::Wait;
use std::thread::Threads;

/// Opens the disk of the journal, answers the list over it, and puts it back.
pub(crate) fn serve_files<R: AllocGlobal + Threads + Wait + Sync, O: Outside, L: Rule + Send>(
    rt: &R,
    files: Files,
    journal: &str,
    client: &ClientWord,
    workers: u32,
    rules: Vec<ClientRules<L>>,
    outside: &mut O,
) -> Result<Ends, Refusal>
    requires client { IsBatchClient client.now }
    requires workers { AreWorkers workers }
    requires files { AreFiles files }
    ensures step { BatchStep (run_ghosts O.Src.Source O.Snk.Sink O.Dsk.Disk L.Rule) files
        journal.now
        (batch_of client.now workers rules.items) (scene O.Outside outside.old)
        (scene O.Outside outside.new) result }
{
    let Ok(disk) = outside.disk(journal) else {
        return Err(not_opened(rt.alloc(), journal));
    };
    let (disk, outcome) = serve_disk(rt, disk, files, journal, client, workers, rules, outside);
    outside.put_back_disk(journal, disk);
    outcome
}

// Opens the journal on a disk, answers the list over it, and hands the disk back.
fn serve_disk<R: AllocGlobal + Threads + Wait + Sync, O: Outside, L: Rule + Send>(
    rt: &R,
    disk: O::Dsk,
    files: Files,
    journal: &str,
    client: &ClientWord,
    workers: u32,
    rules: Vec<ClientRules<L>>,
    outside: &mut O,
) -> (O::Dsk, Result<Ends, Refusal>)
    requires client { IsBatchClient client.now }
    requires workers { AreWorkers workers }
    requires files { AreFiles files }
    ensures says { DiskSays (run_ghosts O.Src.Source O.Snk.Sink O.Dsk.Disk L.Rule) files journal.now
        (batch_of client.now workers rules.items) disk result.0 (scene O.Outside outside.old)
        (scene O.Outside outside.new) result.1 }
    ensures keeps { KeepsTo (pair_calls client.now) (scene O.Outside outside.old)
        (scene O.Outside outside.new) result.1 }
{
    match open_book(rt.alloc(), disk, files, journal) {
        Ok(opened) => {
            let Opened {
                book,
                named,
                trains,
            } = opened;
            serve_book(rt, book, named, trains, client, workers, rules, outside)
        }
        Err((disk, refusal)) => (disk, Err(refusal)),
    }
}
