//! All lines of a list, answered by workers that sit at their seats.

ghost use Rattle.std.specs.Prelude.{◌≡◌, ◌+◌, ◌*◌, ◌<◌, ◌≤◌, [], List as list_of, All, IfSome};
ghost use Rattle.std.specs.Prelude.{length, option_map};
ghost use Rattle.batch_pool.specs.Batches.{AreMatched};
ghost use Rattle.batch_command.specs.Clerks.{IsFresh};
ghost use Rattle.batch_command.specs.Outcomes.{HaveAnswered};
ghost use Rattle.batch_command.specs.Rooms.{IsRoomFor};
ghost use Rattle.batch_command.specs.Seating.{IsClerkOf};
ghost use Rattle.batch_command.specs.declared.batch_server.members.Member.{Member as member_type};
ghost use Rattle.served_clients.specs.gate.Passes.{view};
ghost use Rattle.served_clients.specs.lines.declared.lines.TheConstants.{MAX_LINE_BYTES};
ghost use Rattle.command_line.specs.declared.batch_words.clients.TheConstants.{MAX_WORKERS};
ghost use Rattle.served_clients.specs.turns.Turns.{IsReady};
ghost use Rattle.served_clients.specs.sessions.declared.sessions.TheConstants.{MAX_LINES};
ghost use Rattle.served_clients.specs.declared.client_seats.gates.TheConstants.{TURNS_OF_A_CLIENT};

use crate::batch_server::clerks::Clerk;
use crate::batch_server::kept::keep;
use crate::batch_server::members::Worked;
use crate::batch_server::rooms::Room;
use crate::batch_server::seating::leave_served;
use crate::list_replies::texts_in_order;
use batch_pool::answer_batch;
use outside_io::{Between, Disk};
use rail_types::{List, Name};
use served_clients::admission::Rule;
use served_clients::answers::Shared;
use served_clients::book::Book;
use served_clients::gate::Pass;
use std::alloc::Global;
use std::sync::Wait;
use std::thread::Threads;

/// Each line that is a worker's own is answered by this one, and then all others, each by one
/// worker. The workers leave their seats, and the texts of the replies are put into the order of
/// the list, or there are none for want of memory.
pub(crate) fn answer_all<
    'a,
    R: Threads + Wait + Sync,
    D: Disk + Send,
    B: Between + Send + Drop,
    L: Rule + Send + Drop,
>(
    rt: &R,
    alloc: Global,
    shared: &Shared<D>,
    pass: &mut Pass<Book<D>>,
    lines: &[Name],
    owners: &[Option<u32>],
    clerks: Vec<Clerk<'a, D, B, L>>,
    room: Room<'a, D, B, L>,
) -> (Vec<Worked<L>>, Option<Vec<List<u8>>>)
    requires ready { IsReady shared.now.gate pass.old }
    requires fresh { (view pass.old).turns ≡ [] }
    requires some { 1 ≤ length clerks.items }
    requires few { length clerks.items ≤ MAX_WORKERS }
    requires clerks { All (IsFresh shared.now) clerks.items }
    requires count { length lines.now ≤ MAX_LINES }
    requires texts { All (λ line. length line ≤ MAX_LINE_BYTES) lines.now }
    requires owners { length owners.now ≡ length lines.now }
    requires theirs { All (λ owner. IfSome owner (λ worker. worker < length clerks.items))
        owners.now }
    requires room { IsRoomFor (length clerks.items) owners.now room }
    ensures ready { IsReady shared.now.gate pass.new }
    ensures share { (view pass.new).share
        ≡ (view pass.old).share + length clerks.entry.items * TURNS_OF_A_CLIENT }
    ensures answered { (members : list_of (member_type B L))
        → AreMatched (IsClerkOf L.Rule shared.now) members clerks.entry.items
        → HaveAnswered L.Rule shared.now lines.now owners.now members result.0.items
        (option_map (λ texts. texts.items) result.1) (view pass.new) }
{
    let Room {
        todo,
        kept,
        worked,
        parts,
        texts,
        pool,
    } = room;
    let (clerks, kept) = keep(rt, clerks, lines, owners, kept);
    let served = answer_batch(rt, lines, &todo, clerks, pool);
    let (worked, parts) = leave_served(shared, pass, served, worked, parts);
    let texts = texts_in_order(alloc, texts, &kept, &parts);
    (worked, texts)
}
