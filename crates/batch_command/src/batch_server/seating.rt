//! Workers take their seats, and leave them.

ghost use Rattle.std.specs.Prelude.{◌≡◌, ◌+◌, ◌*◌, ◌<◌, ◌≤◌, ◌++◌, ◌∷◌, [], List as list_of, All};
ghost use Rattle.std.specs.Prelude.{IfNone, IfOk, IfSome, length, map, vec_capacity};
ghost use Rattle.batch_pool.specs.Batches.{AreMatched};
ghost use Rattle.batch_command.specs.Seating.{HaveLeft, IsClerkOf, worked_of};
ghost use Rattle.served_clients.specs.gate.Passes.{view};
ghost use Rattle.served_clients.specs.gate.Views.{StartsWith};
ghost use Rattle.served_clients.specs.Gates.{IsHost, IsNewcomer};
ghost use Rattle.served_clients.specs.Joins.{AreJoined};
ghost use Rattle.served_clients.specs.Seats.{found_at, IsBack, IsDone};
ghost use Rattle.served_clients.specs.Talks.{Talk as talk_type};
ghost use Rattle.served_clients.specs.declared.client_seats.gates.TheConstants.{TURNS_OF_A_CLIENT};
ghost use Rattle.served_clients.specs.turns.Turns.{IsReady, timetable_at};
ghost use Rattle.served_clients.specs.turns.Sharing.{IsShared};
ghost use Rattle.rail_types.specs.Limits.{IsClientName};
ghost use Rattle.rail_types.specs.declared.entries.Entry.{Entry as entry_type};

use crate::batch_server::clerks::Clerk;
use crate::batch_server::members::{Member, Worked};
use batch_pool::Served;
use no_memory::NoMemory;
use outside_io::{Between, Disk};
use rail_types::List;
use served_clients::admission::Rule;
use served_clients::answers::Shared;
use served_clients::book::Book;
use served_clients::bytes::Buffer;
use served_clients::client_seats::{Newcomer, leave_seat, take_seat, told_positions};
use served_clients::gate::Pass;
use served_clients::lines::reply_texts::Reply;
use std::alloc::Global;

/// A client for each worker, which knows the book as it stands.
pub(crate) fn newcomers_of<D: Disk, B: Between + Drop, L: Rule>(
    alloc: Global,
    book: &Book<D>,
    members: &[Member<B, L>],
) -> Result<Vec<Newcomer>, NoMemory>
    requires { All (λ member. IsClientName member.name) members.now }
    ensures { IfOk result (λ newcomers. AreMatched
        (λ member newcomer. IsNewcomer book.now.timetable book.now.entries member.name newcomer)
        members.now newcomers.items) }
{
    let places = told_positions(alloc, book.history())?;
    let mut newcomers = Vec::new(alloc);
    for member in members {
        let newcomer = Newcomer::new(alloc, book, &places, &member.name)?;
        newcomers.push(newcomer)?;
    }
    Ok(newcomers)
}

/// Gives each worker its seat, in their order.
pub(crate) fn seat_all<'a, D: Disk, B: Between + Drop, L: Rule>(
    alloc: Global,
    shared: &'a Shared<D>,
    pass: &mut Pass<Book<D>>,
    mut members: Vec<Member<B, L>>,
    mut newcomers: Vec<Newcomer>,
    mut clerks: Vec<Clerk<'a, D, B, L>>,
) -> Vec<Clerk<'a, D, B, L>>
    requires shared { IsShared shared.now }
    requires host { IsHost shared.now pass.old }
    requires share { (view pass.old).share ≡ length members.items * TURNS_OF_A_CLIENT + 1 }
    requires newcomers { AreMatched (λ member newcomer.
        IsNewcomer (timetable_at shared.now.gate) (found_at shared.now.gate) member.name newcomer)
        members.items newcomers.items }
    requires none { clerks.items ≡ [] }
    requires room { length members.items ≤ vec_capacity clerks }
    ensures host { IsHost shared.now pass.new }
    ensures share { (view pass.new).share ≡ 1 }
    ensures clerks { AreMatched (IsClerkOf L.Rule shared.now) members.items result.items }
{
    while let Some(member) = first_out(&mut members) {
        let Some(newcomer) = first_out(&mut newcomers) else {
            unreachable!()
        };
        let clerk = seat(alloc, shared, pass, member, newcomer);
        clerks.push_reserved(clerk);
    }
    clerks
}

// Gives a worker its seat.
fn seat<'a, D: Disk, B: Between + Drop, L: Rule>(
    alloc: Global,
    shared: &'a Shared<D>,
    pass: &mut Pass<Book<D>>,
    member: Member<B, L>,
    newcomer: Newcomer,
) -> Clerk<'a, D, B, L>
    requires shared { IsShared shared.now }
    requires host { IsHost shared.now pass.old }
    requires share { TURNS_OF_A_CLIENT < (view pass.old).share }
    requires newcomer { IsNewcomer (timetable_at shared.now.gate) (found_at shared.now.gate)
        member.name newcomer }
    ensures host { IsHost shared.now pass.new }
    ensures share { (view pass.new).share + TURNS_OF_A_CLIENT ≡ (view pass.old).share }
    ensures clerk { IsClerkOf L.Rule shared.now member result }
{
    let Member {
        name,
        between,
        rules,
    } = member;
    let seat = take_seat(shared, pass, newcomer, between, rules, false);
    Clerk {
        alloc,
        name,
        seat,
        text: Buffer::new(alloc),
        proof: Buffer::new(alloc),
        asked: 0,
    }
}

/// Takes the passes of workers that come back from a batch in again, and tells how many lines each
/// answered, and what it answered in the batch.
pub(crate) fn leave_served<'a, D: Disk + Send, B: Between + Send + Drop, L: Rule + Send + Drop>(
    shared: &Shared<D>,
    pass: &mut Pass<Book<D>>,
    mut served: Vec<Served<Clerk<'a, D, B, L>>>,
    mut worked: Vec<Worked<L>>,
    mut parts: Vec<List<(u32, Reply)>>,
) -> (Vec<Worked<L>>, Vec<List<(u32, Reply)>>)
    requires ready { IsReady shared.now.gate pass.old }
    requires fresh { (view pass.old).turns ≡ [] }
    requires back { All (λ one. IsBack shared.now one.worker.seat) served.items }
    requires none { worked.items ≡ [] }
    requires room { length served.items ≤ vec_capacity worked }
    requires empty { parts.items ≡ [] }
    requires space { length served.items ≤ vec_capacity parts }
    ensures ready { IsReady shared.now.gate pass.new }
    ensures share { (view pass.new).share
        ≡ (view pass.old).share + length served.entry.items * TURNS_OF_A_CLIENT }
    ensures worked { result.0.items ≡ map (λ one. worked_of one.worker) served.entry.items }
    ensures left { HaveLeft L.Rule shared.now (map (λ one. one.worker) served.entry.items)
        (view pass.new) }
    ensures parts { result.1.items ≡ map (λ one. one.answers) served.entry.items }
{
    while let Some(back) = first_out(&mut served) {
        let Served { worker, answers } = back;
        let one = leave(shared, pass, worker);
        worked.push_reserved(one);
        parts.push_reserved(answers);
    }
    (worked, parts)
}

// Takes the pass of a worker in again.
fn leave<'a, D: Disk, B: Between + Drop, L: Rule>(
    shared: &Shared<D>,
    pass: &mut Pass<Book<D>>,
    clerk: Clerk<'a, D, B, L>,
) -> Worked<L>
    requires ready { IsReady shared.now.gate pass.old }
    requires back { IsBack shared.now clerk.seat }
    ensures ready { IsReady shared.now.gate pass.new }
    ensures share { (view pass.new).share ≡ (view pass.old).share + TURNS_OF_A_CLIENT }
    ensures turns { (view clerk.entry.seat.guest.pass).turns ≡ []
        → (view pass.new).turns ≡ (view pass.old).turns }
    ensures worked { result ≡ worked_of clerk.entry }
    ensures seen { (history : list_of entry_type)
        → All (λ list. StartsWith history list) (view pass.new).joined
        → All (λ list. StartsWith history list) (view pass.old).joined
        × StartsWith history (view clerk.entry.seat.guest.pass).seen }
    ensures joined { (talks : list_of talk_type) (talk : talk_type)
        → AreJoined shared.now (view pass.old) talks
        → IsDone L.Rule shared.now clerk.entry.seat talk
        → AreJoined shared.now (view pass.new) (talks ++ talk ∷ []) }
{
    let Clerk {
        alloc: _alloc,
        name,
        seat,
        text: _text,
        proof: _proof,
        asked,
    } = clerk;
    let rules = leave_seat(shared, pass, seat);
    Worked {
        name,
        lines: asked,
        rules,
    }
}

// Takes the first element out.
fn first_out<X: Drop>(items: &mut Vec<X>) -> Option<X>
    ensures some { IfSome result (λ first. items.old.items ≡ first ∷ items.new.items) }
    ensures none { IfNone result (items.old.items ≡ []) }
{
    if items.is_empty() {
        return None;
    }
    Some(items.remove(0))
}
