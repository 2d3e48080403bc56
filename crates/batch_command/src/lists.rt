//! A list that is read, answered over a book, and written.

ghost use Rattle.std.specs.Prelude.{◌≡◌, ◌≢◌, ◌<◌, ◌≤◌, ℕ, List as list_of, Option as option_of};
ghost use Rattle.std.specs.Prelude.{All, AllPairs, IfErr, IfOk, IfSome, length, option_map};
ghost use Rattle.batch_command.specs.Asked.{HasFlaw, IsAsked};
ghost use Rattle.batch_command.specs.GivenBatches.{batch_of};
ghost use Rattle.batch_command.specs.Lists.{AreMembers, LinesSay, ListSays, WritesTexts};
ghost use Rattle.command_line.specs.Workers.{AreWorkers, worker_names as names_of_workers};
ghost use Rattle.command_line.specs.declared.batch_words.clients.TheConstants.{
  MAX_BATCH_NAME_BYTES,
};
ghost use Rattle.command_line.specs.declared.batch_words.clients.TheConstants.{MAX_WORKERS};
ghost use Rattle.served_clients.specs.admission.declared.client_rules.clients.ClientRules.{
  ClientRules as rules_type,
};
ghost use Rattle.served_clients.specs.lines.Within.{AreSound};
ghost use Rattle.served_clients.specs.RunGhosts.{run_ghosts};
ghost use Rattle.served_clients.specs.Lending.{IsUnchanged};
ghost use Rattle.command_reports.specs.Scenes.{scene};
ghost use Rattle.served_clients.specs.lines.declared.lines.TheConstants.{MAX_LINE_BYTES};
ghost use Rattle.served_clients.specs.sessions.declared.sessions.TheConstants.{MAX_LINES};
ghost use Rattle.served_clients.specs.book.Ledgers.{settled_of};
ghost use Rattle.rail_types.specs.Limits.{IsClientName};
ghost use Rattle.batch_command.specs.Owners.{owners_of};

use crate::batch_reports::{ends_of, list_stops};
use crate::batch_server::{Answered, Member, answer_list};
use crate::flaws::numbers_asked;
use crate::list_lines::read_list;
use crate::list_replies::write_texts;
use crate::list_workers::ListWorkers;
use crate::members::members_of;
use crate::worker_numbers::owners_of;
use command_line::batch_words::{worker_names, worker_names_are_names, worker_names_differ};
use command_reports::Refusal;
use no_memory::NoMemory;
use outside_io::{Outside, Sink};
use rail_types::{List, Name};
use served_clients::admission::Rule;
use served_clients::admission::client_rules::ClientRules;
use served_clients::book::Book;
use served_clients::history::History;
use served_clients::lines::Known;
use served_clients::serve_reports::Ends;
use served_clients::served_journals::close_book;
use served_clients::sessions::{Ended, Why};
use std::alloc::{AllocGlobal, Global};
use std::sync::Wait;
use std::thread::Threads;

/// Reads a list as a whole, answers it over a book by so many workers, writes the replies in the
/// order of the list, and hands back the book's disk. A list that is not read, or has a flaw, is
/// refused, and nothing is answered. The outside is asked for what it has called between the
/// searches of the workers, and for nothing else.
pub(crate) fn serve_list<R: AllocGlobal + Threads + Wait + Sync, O: Outside, L: Rule + Send>(
    rt: &R,
    book: Book<O::Dsk>,
    known: Known,
    answering: &ListWorkers<'_>,
    rules: Vec<ClientRules<L>>,
    source: &mut O::Src,
    sink: &mut O::Snk,
    outside: &mut O,
) -> (O::Dsk, Result<Ends, Refusal>)
    requires named { IsClientName answering.now.client.now.client }
    requires name { length answering.now.client.now.client ≤ MAX_BATCH_NAME_BYTES }
    requires workers { AreWorkers answering.now.workers }
    requires settled { settled_of book ≡ length book.entries }
    requires sound { AreSound known }
    requires network { known.railway.network ≡ book.timetable.net }
    ensures says { ListSays (run_ghosts O.Src.Source O.Snk.Sink O.Dsk.Disk L.Rule) known
        (batch_of answering.now.client.now answering.now.workers rules.items) book result.0
        source.old source.new sink.old sink.new result.1 }
    ensures still { IsUnchanged (scene O.Outside outside.old) (scene O.Outside outside.new) }
{
    match read_list(rt.alloc(), source) {
        Ok(lines) => answer_lines(rt, book, known, answering, rules, &lines, sink, outside),
        Err(fault) => (
            book.close(),
            Err(list_stops(rt.alloc(), &answering.client.client, fault)),
        ),
    }
}

// Answers the lines of a list that was read.
fn answer_lines<R: AllocGlobal + Threads + Wait + Sync, O: Outside, L: Rule + Send>(
    rt: &R,
    book: Book<O::Dsk>,
    known: Known,
    answering: &ListWorkers<'_>,
    rules: Vec<ClientRules<L>>,
    lines: &[Name],
    sink: &mut O::Snk,
    outside: &mut O,
) -> (O::Dsk, Result<Ends, Refusal>)
    requires named { IsClientName answering.now.client.now.client }
    requires name { length answering.now.client.now.client ≤ MAX_BATCH_NAME_BYTES }
    requires workers { AreWorkers answering.now.workers }
    requires settled { settled_of book ≡ length book.entries }
    requires sound { AreSound known }
    requires network { known.railway.network ≡ book.timetable.net }
    requires count { length lines.now ≤ MAX_LINES }
    requires texts { All (λ line. length line ≤ MAX_LINE_BYTES) lines.now }
    ensures says { LinesSay (run_ghosts O.Src.Source O.Snk.Sink O.Dsk.Disk L.Rule) known
        (batch_of answering.now.client.now answering.now.workers rules.items) lines.now book
        result.0 sink.old sink.new result.1 }
    ensures still { IsUnchanged (scene O.Outside outside.old) (scene O.Outside outside.new) }
{
    worker_names_are_names();
    worker_names_differ();
    let client = answering.client;
    let batch = &client.client;
    let workers = answering.workers;
    match owners_asked(rt.alloc(), &known, batch, workers, book.history(), lines) {
        Ok(owners) => match members_of(rt.alloc(), batch, workers, rules, outside) {
            Ok(members) => {
                answer_owned::<R, O, L>(rt, book, known, answering, members, lines, &owners, sink)
            }
            Err(NoMemory) => (book.close(), Err(Refusal::Memory)),
        },
        Err(refusal) => (book.close(), Err(refusal)),
    }
}

// Answers the lines of a list without a flaw by members whose they are already, or by others.
fn answer_owned<R: AllocGlobal + Threads + Wait + Sync, O: Outside, L: Rule + Send>(
    rt: &R,
    book: Book<O::Dsk>,
    known: Known,
    answering: &ListWorkers<'_>,
    members: Vec<Member<O::Btw, L>>,
    lines: &[Name],
    owners: &[Option<u32>],
    sink: &mut O::Snk,
) -> (O::Dsk, Result<Ends, Refusal>)
    requires some { 1 ≤ length members.items }
    requires few { length members.items ≤ MAX_WORKERS }
    requires named { All (λ member. IsClientName member.name) members.items }
    requires names { AllPairs (λ a b. a.name ≢ b.name) members.items }
    requires settled { settled_of book ≡ length book.entries }
    requires sound { AreSound known }
    requires network { known.railway.network ≡ book.timetable.net }
    requires count { length lines.now ≤ MAX_LINES }
    requires texts { All (λ line. length line ≤ MAX_LINE_BYTES) lines.now }
    requires owners { length owners.now ≡ length lines.now }
    requires theirs { All (λ owner. IfSome owner (λ worker. worker < length members.items))
        owners.now }
    ensures says { (rules : list_of (rules_type L)) (numbers : list_of (option_of ℕ))
        → AreMembers answering.now.client.now.client answering.now.workers rules members.items
        → IsAsked known answering.now.client.now.client answering.now.workers book.entries
        lines.now numbers
        → owners.now ≡ owners_of book.entries
        (names_of_workers answering.now.client.now.client answering.now.workers) numbers
        → LinesSay (run_ghosts O.Src.Source O.Snk.Sink O.Dsk.Disk L.Rule) known
        (batch_of answering.now.client.now answering.now.workers rules) lines.now book
        result.0 sink.old sink.new result.1 }
{
    match answer_list(rt, rt.alloc(), book, known, members, lines, owners) {
        Ok(answered) => {
            let Answered {
                book,
                workers,
                texts,
            } = answered;
            let written = write_if_told(texts, sink);
            let ends = ends_of(rt.alloc(), &answering.client.client, &written, &workers);
            (close_book(book), Ok(ends))
        }
        Err((book, NoMemory)) => (book.close(), Err(Refusal::Memory)),
    }
}

// For each line of a list without a flaw the worker whose it is already, by its number.
fn owners_asked(
    alloc: Global,
    known: &Known,
    batch: &Name,
    workers: u32,
    history: &History,
    lines: &[Name],
) -> Result<Vec<Option<u32>>, Refusal>
    requires name { length batch.now ≤ MAX_BATCH_NAME_BYTES }
    requires workers { AreWorkers workers }
    requires count { length lines.now ≤ MAX_LINES }
    requires texts { All (λ line. length line ≤ MAX_LINE_BYTES) lines.now }
    ensures asked { IfOk result (λ owners. (numbers : list_of (option_of ℕ))
        × IsAsked known.now batch.now workers history.now.entries lines.now numbers
        × (owners.items ≡ owners_of history.now.entries (names_of_workers batch.now workers)
        numbers)) }
    ensures flaw { IfErr result (HasFlaw known.now batch.now workers
        history.now.entries lines.now) }
{
    match numbers_asked(alloc, known, batch, workers, history, lines) {
        Ok(numbers) => match owners_by(alloc, history, batch, workers, &numbers) {
            Ok(owners) => Ok(owners),
            Err(NoMemory) => Err(Refusal::Memory),
        },
        Err(refusal) => Err(refusal),
    }
}

// For each line the worker whose it is already, by its number.
fn owners_by(
    alloc: Global,
    history: &History,
    batch: &Name,
    workers: u32,
    numbers: &[Option<u64>],
) -> Result<Vec<Option<u32>>, NoMemory>
    requires name { length batch.now ≤ MAX_BATCH_NAME_BYTES }
    requires workers { AreWorkers workers }
    ensures { IfOk result (λ owners. owners.items
        ≡ owners_of history.now.entries (names_of_workers batch.now workers) numbers.now) }
{
    let names = worker_names(alloc, batch, workers)?;
    owners_of(alloc, history, names.as_slice(), numbers)
}

// Writes the texts of all replies; where memory was wanted for them, nothing.
fn write_if_told<T: Sink>(texts: Option<Vec<List<u8>>>, sink: &mut T) -> Ended
    requires { IfSome texts (λ all. length all.items ≤ MAX_LINES) }
    ensures { WritesTexts T.Sink (option_map (λ all. all.items) texts) sink.old sink.new result }
{
    match texts {
        Some(texts) => write_texts(&texts, sink),
        None => Ended {
            lines: 0,
            why: Why::Memory,
        },
    }
}
