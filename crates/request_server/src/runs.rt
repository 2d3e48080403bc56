//! Many clients at once.

ghost use Rattle.std.specs.Prelude.{◌≡◌, ◌≢◌, ◌+◌, ◌*◌, ◌<◌, ◌≤◌, [], ◌++◌, ◌∷◌, ℕ, List, All};
ghost use Rattle.std.specs.Prelude.{AllPairs, IfOk, IfErr, slice_index_or, length, map, reverse};
ghost use Rattle.std.specs.Prelude.{vec_len, vec_capacity};
ghost use Rattle.served_clients.specs.gate.Passes.{view};
ghost use Rattle.served_clients.specs.gate.Views.{StartsWith};
ghost use Rattle.client_lines.specs.Within.{AreSound};
ghost use Rattle.command_line.specs.declared.client_words.clients.TheConstants.{MAX_CLIENTS};
ghost use Rattle.served_clients.specs.Gates.{IsHost, IsNewcomer};
ghost use Rattle.served_clients.specs.declared.client_seats.gates.TheConstants.{TURNS_OF_A_CLIENT};
ghost use Rattle.served_clients.specs.Joins.{AreJoined};
ghost use Rattle.served_clients.specs.ClientRuns.{AreMatched};
ghost use Rattle.served_clients.specs.Seats.{found_at, IsBack};
ghost use Rattle.served_clients.specs.Talks.{Talk as talk_type};
ghost use Rattle.served_clients.specs.turns.Turns.{IsReady, timetable_at};
ghost use Rattle.line_answers.specs.turns.Sharing.{IsShared};
ghost use Rattle.line_sessions.specs.Ends.{streams};
ghost use Rattle.served_clients.specs.book.Footings.{footing_of};
ghost use Rattle.served_clients.specs.book.Ledgers.{settled_of};
ghost use Rattle.rail_types.specs.Limits.{IsClientName};
ghost use Rattle.rail_types.specs.declared.entries.Entry.{Entry as entry_type};
ghost use Rattle.request_server.specs.Jobs.{begun, begun_of, HasPassed, IsDoneJob, IsReadyJob};
ghost use Rattle.request_server.specs.Jobs.{WasServed};
ghost use Rattle.request_server.specs.Runs.{WereServed};

use crate::clients::serve_client;
use crate::jobs::Job;
use admission_rules::Rule;
use client_lines::Known;
use command_line::client_words::MAX_CLIENTS;
use line_answers::Shared;
use line_sessions::{Ended, Why};
use no_memory::NoMemory;
use outside_io::{Between, Disk, Sink, Source};
use served_clients::book::Book;
use served_clients::client_seats::{
    Newcomer, close_gate, leave_seat, open_gate, take_seat, told_positions,
};
use served_clients::gate::Pass;
use served_clients::{Plan, Session};
use std::alloc::Global;
use std::sync::Wait;
use std::thread;
use std::thread::Threads;

/// Serves 1 to 16 clients at once over one book, each in a thread where one can be made. Each
/// client's rules are told its own entries: first those of the book, and then each that is added
/// for a line of it. Where a client wants proofs, one is written before each of its replies that
/// has one. It hands back the book, and how each client's session ended. Where there is no memory
/// for the clients, nothing was read and all is handed back.
pub fn serve_clients<
    R: Threads + Wait + Sync,
    D: Disk + Send,
    S: Source + Send + Drop,
    T: Sink + Send + Drop,
    B: Between + Send + Drop,
    L: Rule + Send + Drop,
>(
    rt: &R,
    alloc: Global,
    book: Book<D>,
    known: Known,
    plans: Vec<Plan<S, T, B, L>>,
) -> Result<(Book<D>, Vec<Session<S, T, L>>), (Book<D>, Vec<Plan<S, T, B, L>>, NoMemory)>
    requires some { 1 ≤ length plans.items }
    requires few { length plans.items ≤ MAX_CLIENTS }
    requires named { All (λ p. IsClientName p.name) plans.items }
    requires names { AllPairs (λ a b. a.name ≢ b.name) plans.items }
    requires settled { settled_of book ≡ length book.entries }
    requires known { AreSound known }
    requires network { known.railway.network ≡ book.timetable.net }
    ensures served { IfOk result (λ r. WereServed L.Rule D.faults
        (streams S.left S.faults T.held T.faults) known book r.0 plans.items r.1.items) }
    ensures footing { IfOk result (λ r. footing_of r.0 ≡ footing_of book) }
    ensures refused { IfErr result (λ e. (e.0 ≡ book) × (e.1.items ≡ plans.items)) }
{
    let Ok(newcomers) = newcomers_of(alloc, &book, &plans) else {
        return Err((book, plans, NoMemory));
    };
    let Ok(jobs) = Vec::with_capacity(alloc, plans.len()) else {
        return Err((book, plans, NoMemory));
    };
    let Ok(sessions) = Vec::with_capacity(alloc, plans.len()) else {
        return Err((book, plans, NoMemory));
    };
    let (shared, mut pass) = match open_gate(alloc, book, known, plans.len()) {
        Ok(opened) => opened,
        Err((book, refused)) => return Err((book, plans, refused)),
    };
    let jobs = seat_all(&shared, &mut pass, plans, newcomers, jobs);
    let jobs = serve_all(rt, alloc, &shared, jobs);
    let sessions = join_all(&shared, &mut pass, jobs, sessions);
    let book = close_gate(shared, pass);
    Ok((book, sessions))
}

// A client for each plan, which knows the book as it stands.
fn newcomers_of<D: Disk, S: Source + Drop, T: Sink + Drop, B: Between + Drop, L: Rule>(
    alloc: Global,
    book: &Book<D>,
    plans: &[Plan<S, T, B, L>],
) -> Result<Vec<Newcomer>, NoMemory>
    requires named { All (λ p. IsClientName p.name) plans.now }
    ensures names { IfOk result (λ newcomers.
        map (λ n. n.client.name) newcomers.items ≡ map (λ p. p.name) plans.now) }
    ensures newcomers { IfOk result (λ newcomers. All (λ n.
        IsNewcomer book.now.timetable book.now.entries n.client.name n) newcomers.items) }
{
    let places = told_positions(alloc, book.history())?;
    let mut newcomers = Vec::new(alloc);
    for plan in plans {
        let newcomer = Newcomer::new(alloc, book, &places, &plan.name)?;
        newcomers.push(newcomer)?;
    }
    Ok(newcomers)
}

// Gives each client its seat. The clients come out in the other order.
fn seat_all<'a, D: Disk, S: Source + Drop, T: Sink + Drop, B: Between + Drop, L: Rule>(
    shared: &'a Shared<D>,
    pass: &mut Pass<Book<D>>,
    mut plans: Vec<Plan<S, T, B, L>>,
    mut newcomers: Vec<Newcomer>,
    mut jobs: Vec<Job<'a, D, S, T, B, L>>,
) -> Vec<Job<'a, D, S, T, B, L>>
    requires shared { IsShared shared.now }
    requires host { IsHost shared.now pass.old }
    requires share { (view pass.old).share ≡ length plans.items * TURNS_OF_A_CLIENT + 1 }
    requires names { map (λ n. n.client.name) newcomers.items ≡ map (λ p. p.name) plans.items }
    requires newcomers { All (λ n. IsNewcomer (timetable_at shared.now.gate)
        (found_at shared.now.gate) n.client.name n) newcomers.items }
    requires jobs { jobs.items ≡ [] }
    requires room { vec_len plans ≤ vec_capacity jobs }
    ensures host { IsHost shared.now pass.new }
    ensures share { (view pass.new).share ≡ 1 }
    ensures jobs { All (IsReadyJob shared.now) result.items }
    ensures begun { map (begun_of L.Rule) result.items
        ≡ reverse (map (begun L.Rule (found_at shared.now.gate)) plans.items) }
    ensures count { length result.items ≡ length plans.items }
{
    while let Some(plan) = plans.pop() {
        let newcomer = last_of(&mut newcomers);
        let Plan {
            name,
            source,
            sink,
            proofs,
            between,
            rules,
        } = plan;
        let proves = proofs.is_wanted();
        let seat = take_seat(shared, pass, newcomer, between, rules, proves);
        jobs.push_reserved(Job {
            seat,
            name,
            source,
            sink,
            proofs,
            ended: Ended {
                lines: 0,
                why: Why::Memory,
            },
        });
    }
    jobs
}

fn last_of(newcomers: &mut Vec<Newcomer>) -> Newcomer
    requires { 1 ≤ length newcomers.old.items }
    ensures { newcomers.old.items ≡ newcomers.new.items ++ result ∷ [] }
{
    let Some(newcomer) = newcomers.pop() else {
        unreachable!()
    };
    newcomer
}

// Serves each client, in up to sixteen threads.
fn serve_all<
    'a,
    R: Threads + Wait + Sync,
    D: Disk + Send,
    S: Source + Send + Drop,
    T: Sink + Send + Drop,
    B: Between + Send + Drop,
    L: Rule + Send + Drop,
>(
    rt: &R,
    alloc: Global,
    shared: &Shared<D>,
    mut jobs: Vec<Job<'a, D, S, T, B, L>>,
) -> Vec<Job<'a, D, S, T, B, L>>
    requires { All (IsReadyJob shared.now) jobs.items }
    ensures back { All (λ job. IsBack shared.now job.seat) result.items }
    ensures count { length result.items ≡ length jobs.entry.items }
    ensures done { (talks : List talk_type) × AreMatched
        (IsDoneJob L.Rule shared.now (streams S.left S.faults T.held T.faults))
        (map (begun_of L.Rule) jobs.entry.items) result.items talks }
{
    serve_each(rt, alloc, shared, jobs.as_mut_slice());
    jobs
}

fn serve_each<
    'a,
    R: Threads + Wait + Sync,
    D: Disk + Send,
    S: Source + Send + Drop,
    T: Sink + Send + Drop,
    B: Between + Send + Drop,
    L: Rule + Send + Drop,
>(rt: &R, alloc: Global, shared: &Shared<D>, jobs: &mut [Job<'a, D, S, T, B, L>])
    requires { All (IsReadyJob shared.now) jobs.old }
    ensures { (k : ℕ) (d : _) → k < length jobs.old
        → WasServed L.Rule (streams S.left S.faults T.held T.faults)
        (slice_index_or jobs.old k d) (slice_index_or jobs.new k d) }
{
    thread::for_each_mut(
        rt,
        jobs,
        MAX_CLIENTS,
        &|_, job| { serve_job(rt, alloc, shared, job) },
    );
}

fn serve_job<'a, R: Wait, D: Disk, S: Source + Drop, T: Sink + Drop, B: Between + Drop, L: Rule>(
    rt: &R,
    alloc: Global,
    shared: &Shared<D>,
    job: &mut Job<'a, D, S, T, B, L>,
)
    requires { IsReadyJob shared.now job.old }
    ensures { WasServed L.Rule (streams S.left S.faults T.held T.faults) job.old job.new }
{
    let ended = serve_client(
        rt,
        alloc,
        shared,
        &mut job.seat,
        &mut job.source,
        &mut job.sink,
        &mut job.proofs,
    );
    job.ended = ended;
}

// Takes the passes in again. The sessions come out in the other order.
fn join_all<'a, D: Disk, S: Source + Drop, T: Sink + Drop, B: Between + Drop, L: Rule>(
    shared: &Shared<D>,
    pass: &mut Pass<Book<D>>,
    mut jobs: Vec<Job<'a, D, S, T, B, L>>,
    mut sessions: Vec<Session<S, T, L>>,
) -> Vec<Session<S, T, L>>
    requires ready { IsReady shared.now.gate pass.old }
    requires turns { (view pass.old).turns ≡ [] }
    requires jobs { All (λ job. IsBack shared.now job.seat) jobs.items }
    requires sessions { sessions.items ≡ [] }
    requires room { vec_len jobs ≤ vec_capacity sessions }
    ensures ready { IsReady shared.now.gate pass.new }
    ensures share { (view pass.new).share
        ≡ (view pass.old).share + length jobs.entry.items * TURNS_OF_A_CLIENT }
    ensures joined { (clients : _) (talks : List talk_type) → AreMatched
        (IsDoneJob L.Rule shared.now (streams S.left S.faults T.held T.faults))
        clients (reverse jobs.entry.items) talks
        → ((history : List entry_type)
        → All (λ list. StartsWith history list) (view pass.new).joined
        → AreMatched (HasPassed L.Rule (streams S.left S.faults T.held T.faults) history)
        clients result.items talks)
        × AreJoined shared.now (view pass.new) talks }
{
    while let Some(job) = jobs.pop() {
        let Job {
            seat,
            name,
            source,
            sink,
            proofs,
            ended,
        } = job;
        let rules = leave_seat(shared, pass, seat);
        sessions.push_reserved(Session {
            name,
            source,
            sink,
            proofs,
            ended,
            rules,
        });
    }
    sessions
}
