//! Clients served over an opened journal.

ghost use Rattle.std.specs.Prelude.{◌≡◌, length};
ghost use Rattle.client_lines.specs.Within.{AreSound};
ghost use Rattle.request_server.specs.Clienteles.{clientele_of};
ghost use Rattle.request_server.specs.PlannedClients.{AreClients, client_calls};
ghost use Rattle.command_reports.specs.Works.{KeepsTo};
ghost use Rattle.command_reports.specs.Scenes.{scene};
ghost use Rattle.served_clients.specs.book.Ledgers.{settled_of};
ghost use Rattle.request_server.specs.Serving.{BookSays};
ghost use Rattle.served_clients.specs.Files.{names_of};
ghost use Rattle.served_clients.specs.RunGhosts.{run_ghosts};

use crate::client_plans::{open_clients, put_back_plans, put_back_sessions};
use crate::serve_clients;
use admission_rules::Rule;
use admission_rules::client_rules::ClientRules;
use client_lines::Known;
use command_files::train::Trains;
use command_line::client_words::ClientWord;
use command_line::proof_words::ProofWord;
use command_reports::Refusal;
use no_memory::NoMemory;
use outside_io::Outside;
use rail_types::named_network::Named;
use served_clients::book::Book;
use served_clients::serve_reports::{Ends, ends_of};
use served_clients::served_journals::close_book;
use std::alloc::AllocGlobal;
use std::sync::Wait;
use std::thread::Threads;

/// Opens the streams of the clients, serves the clients over a book by the rules of each, puts the
/// streams back, and hands back the book's disk.
pub(crate) fn serve_book<R: AllocGlobal + Threads + Wait + Sync, O: Outside, L: Rule + Send>(
    rt: &R,
    book: Book<O::Dsk>,
    named: Named,
    trains: Trains,
    clients: &[ClientWord],
    proofs: &[ProofWord],
    mut rules: Vec<ClientRules<L>>,
    outside: &mut O,
) -> (O::Dsk, Result<Ends, Refusal>)
    requires clients { AreClients clients.now proofs.now }
    requires settled { settled_of book ≡ length book.entries }
    requires sound { AreSound (names_of named trains) }
    requires network { named.network ≡ book.timetable.net }
    ensures says { BookSays (run_ghosts O.Src.Source O.Snk.Sink O.Dsk.Disk L.Rule)
        (names_of named trains) (clientele_of clients.now proofs.now rules.items) book result.0
        (scene O.Outside outside.old) (scene O.Outside outside.new) result.1 }
    ensures keeps { KeepsTo (client_calls clients.now proofs.now) (scene O.Outside outside.old)
        (scene O.Outside outside.new) result.1 }
{
    let Ok(known) = Known::new(rt.alloc(), named, trains) else {
        return (book.close(), Err(Refusal::Memory));
    };
    let plans = match open_clients(rt.alloc(), clients, proofs, rules.as_mut_slice(), outside) {
        Ok(plans) => plans,
        Err(refusal) => return (book.close(), Err(refusal)),
    };
    match serve_clients(rt, rt.alloc(), book, known, plans) {
        Ok((book, sessions)) => {
            let ends = ends_of(rt.alloc(), &sessions);
            put_back_sessions(clients, proofs, sessions, outside);
            (close_book(book), Ok(ends))
        }
        Err((book, plans, NoMemory)) => {
            put_back_plans(clients, proofs, plans, outside);
            (book.close(), Err(Refusal::Memory))
        }
    }
}
