//! A list, answered.

ghost use Rattle.std.specs.Prelude.{◌≡◌, ◌≢◌, ◌<◌, ◌≤◌, All, AllPairs, IfErr, IfOk, IfSome, length};
ghost use Rattle.std.specs.Prelude.{option_map};
ghost use Rattle.batch_command.specs.Batches.{WereAnswered};
ghost use Rattle.served_clients.specs.lines.Within.{AreSound};
ghost use Rattle.served_clients.specs.lines.declared.lines.TheConstants.{MAX_LINE_BYTES};
ghost use Rattle.command_line.specs.declared.batch_words.clients.TheConstants.{MAX_WORKERS};
ghost use Rattle.served_clients.specs.sessions.declared.sessions.TheConstants.{MAX_LINES};
ghost use Rattle.served_clients.specs.book.Footings.{footing_of};
ghost use Rattle.served_clients.specs.book.Ledgers.{settled_of};
ghost use Rattle.rail_types.specs.Limits.{IsClientName};

use crate::batch_server::answers::answer_all;
use crate::batch_server::members::{Member, Worked};
use crate::batch_server::rooms::room_for;
use crate::batch_server::seating::{newcomers_of, seat_all};
use no_memory::NoMemory;
use outside_io::{Between, Disk};
use rail_types::{List, Name};
use served_clients::admission::Rule;
use served_clients::book::Book;
use served_clients::client_seats::{close_gate, open_gate};
use served_clients::lines::Known;
use std::alloc::Global;
use std::sync::Wait;
use std::thread::Threads;

/// A list that was answered: the book as it is left, the workers in their order, and the texts of
/// the replies in the order of the list, or None where memory was wanted.
#[derive(Drop)]
pub struct Answered<D: Disk, L: Rule> {
    pub book: Book<D>,
    pub workers: Vec<Worked<L>>,
    pub texts: Option<Vec<List<u8>>>,
}

/// The lines of a list, answered by 1 to 16 workers over one book: first each line that is a
/// worker's own already, in the order of the list, and then all others, each by one worker, at
/// once. The owner of a line is the place of its worker. It hands back the book, how many lines
/// each worker answered, and the texts of the replies in the order of the list, or none where
/// memory was wanted for them. Where there is no memory for the workers, nothing was answered,
/// and the book is handed back.
pub fn answer_list<
    R: Threads + Wait + Sync,
    D: Disk + Send,
    B: Between + Send + Drop,
    L: Rule + Send + Drop,
>(
    rt: &R,
    alloc: Global,
    book: Book<D>,
    known: Known,
    members: Vec<Member<B, L>>,
    lines: &[Name],
    owners: &[Option<u32>],
) -> Result<Answered<D, L>, (Book<D>, NoMemory)>
    requires some { 1 ≤ length members.items }
    requires few { length members.items ≤ MAX_WORKERS }
    requires named { All (λ member. IsClientName member.name) members.items }
    requires names { AllPairs (λ a b. a.name ≢ b.name) members.items }
    requires settled { settled_of book ≡ length book.entries }
    requires known { AreSound known }
    requires network { known.railway.network ≡ book.timetable.net }
    requires count { length lines.now ≤ MAX_LINES }
    requires texts { All (λ line. length line ≤ MAX_LINE_BYTES) lines.now }
    requires owners { length owners.now ≡ length lines.now }
    requires theirs { All (λ owner. IfSome owner (λ worker. worker < length members.items))
        owners.now }
    ensures answered { IfOk result (λ r. WereAnswered L.Rule D.faults known lines.now owners.now
        book r.book members.items r.workers.items (option_map (λ texts. texts.items) r.texts)) }
    ensures footing { IfOk result (λ r. footing_of r.book ≡ footing_of book) }
    ensures refused { IfErr result (λ e. e.0 ≡ book) }
{
    let count = members.len();
    let Ok(newcomers) = newcomers_of(alloc, &book, &members) else {
        return Err((book, NoMemory));
    };
    let Ok(clerks) = Vec::with_capacity(alloc, count) else {
        return Err((book, NoMemory));
    };
    let Ok(room) = room_for(alloc, count, owners) else {
        return Err((book, NoMemory));
    };
    let (shared, mut pass) = match open_gate(alloc, book, known, count) {
        Ok(opened) => opened,
        Err(refused) => return Err(refused),
    };
    let clerks = seat_all(alloc, &shared, &mut pass, members, newcomers, clerks);
    let (workers, texts) = answer_all(rt, alloc, &shared, &mut pass, lines, owners, clerks, room);
    let book = close_gate(shared, pass);
    Ok(Answered {
        book,
        workers,
        texts,
    })
}
