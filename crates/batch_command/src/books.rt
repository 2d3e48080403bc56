//! A list answered over an opened journal.

ghost use Rattle.std.specs.Prelude.{◌≡◌, length};
ghost use Rattle.batch_command.specs.Books.{BookSays};
ghost use Rattle.batch_command.specs.GivenBatches.{batch_of};
ghost use Rattle.command_line.specs.Workers.{AreWorkers, IsBatchClient};
ghost use Rattle.served_clients.specs.lines.Within.{AreSound};
ghost use Rattle.served_clients.specs.StreamClients.{pair_calls};
ghost use Rattle.command_reports.specs.Works.{KeepsTo};
ghost use Rattle.command_reports.specs.Scenes.{scene};
ghost use Rattle.served_clients.specs.book.Ledgers.{settled_of};
ghost use Rattle.served_clients.specs.Files.{names_of};
ghost use Rattle.served_clients.specs.RunGhosts.{run_ghosts};

use crate::list_workers::ListWorkers;
use crate::lists::serve_list;
use command_files::train::Trains;
use command_line::client_words::ClientWord;
use command_reports::Refusal;
use no_memory::NoMemory;
use outside_io::Outside;
use rail_types::named_network::Named;
use served_clients::admission::Rule;
use served_clients::admission::client_rules::ClientRules;
use served_clients::book::Book;
use served_clients::client_streams::{open_streams, put_back_client};
use served_clients::lines::Known;
use served_clients::serve_reports::Ends;
use std::alloc::AllocGlobal;
use std::sync::Wait;
use std::thread::Threads;

/// Opens the streams of the client, answers its list over a book by workers, puts the streams back,
/// and hands back the book's disk.
pub(crate) fn serve_book<R: AllocGlobal + Threads + Wait + Sync, O: Outside, L: Rule + Send>(
    rt: &R,
    book: Book<O::Dsk>,
    named: Named,
    trains: Trains,
    client: &ClientWord,
    workers: u32,
    rules: Vec<ClientRules<L>>,
    outside: &mut O,
) -> (O::Dsk, Result<Ends, Refusal>)
    requires client { IsBatchClient client.now }
    requires workers { AreWorkers workers }
    requires settled { settled_of book ≡ length book.entries }
    requires sound { AreSound (names_of named trains) }
    requires network { named.network ≡ book.timetable.net }
    ensures says { BookSays (run_ghosts O.Src.Source O.Snk.Sink O.Dsk.Disk L.Rule)
        (names_of named trains) (batch_of client.now workers rules.items) book result.0
        (scene O.Outside outside.old) (scene O.Outside outside.new) result.1 }
    ensures keeps { KeepsTo (pair_calls client.now) (scene O.Outside outside.old)
        (scene O.Outside outside.new) result.1 }
{
    match Known::new(rt.alloc(), named, trains) {
        Ok(known) => {
            let answering = ListWorkers { client, workers };
            serve_known(rt, book, known, &answering, rules, outside)
        }
        Err(NoMemory) => (book.close(), Err(Refusal::Memory)),
    }
}

// The same over the names that lines may tell.
fn serve_known<R: AllocGlobal + Threads + Wait + Sync, O: Outside, L: Rule + Send>(
    rt: &R,
    book: Book<O::Dsk>,
    known: Known,
    answering: &ListWorkers<'_>,
    rules: Vec<ClientRules<L>>,
    outside: &mut O,
) -> (O::Dsk, Result<Ends, Refusal>)
    requires client { IsBatchClient answering.now.client.now }
    requires workers { AreWorkers answering.now.workers }
    requires settled { settled_of book ≡ length book.entries }
    requires sound { AreSound known }
    requires network { known.railway.network ≡ book.timetable.net }
    ensures says { BookSays (run_ghosts O.Src.Source O.Snk.Sink O.Dsk.Disk L.Rule) known
        (batch_of answering.now.client.now answering.now.workers rules.items) book result.0
        (scene O.Outside outside.old) (scene O.Outside outside.new) result.1 }
    ensures keeps { KeepsTo (pair_calls answering.now.client.now) (scene O.Outside outside.old)
        (scene O.Outside outside.new) result.1 }
{
    match open_streams(rt.alloc(), answering.client, outside) {
        Ok(streams) => {
            let (mut source, mut sink) = streams;
            let (disk, outcome) = serve_list(
                rt,
                book,
                known,
                answering,
                rules,
                &mut source,
                &mut sink,
                outside,
            );
            put_back_client(answering.client, source, sink, outside);
            (disk, outcome)
        }
        Err(refusal) => (book.close(), Err(refusal)),
    }
}
