//! Callers that add to a book in turns, each in a thread.
ghost use Rattle.std.specs.Prelude.{◌≡◌, ◌+◌, ◌*◌, ◌^◌, ◌≤◌, ◌<◌, [], All, IfOk, length, sum_by};
ghost use Rattle.book_gate.specs.Passes.{view, opened, turns_given, turns_left};
ghost use Rattle.tests_gate.specs.Passes.{IsReady, IsFresh, IsSpent, IsHistory, HasAdded};
ghost use Rattle.tests_gate.specs.Passes.{TakesTurns, share};

use crate::numbers::Numbers;
use book_gate::{Gate, Pass};
use no_memory::NoMemory;
use std::alloc::Global;
use std::sync::Wait;
use std::thread;
use std::thread::Threads;
use std::time::{Clock, Duration};

/// A caller, with the number that it adds.
#[derive(Drop)]
pub struct Client {
    pub pass: Pass<Numbers>,
    pub number: u64,
}

impl Client {
    /// Takes one turn. Whoever finds the book empty holds it for a while.
    pub fn take_turn<R: Wait + Clock>(&mut self, rt: &R, gate: &Gate<Numbers>, pause: Duration)
        requires ready { IsReady gate.now self.old.pass }
        requires left { 1 ≤ turns_left self.old.pass }
        ensures ready { IsReady gate.now self.new.pass }
        ensures left { turns_left self.new.pass + 1 ≡ turns_left self.old.pass }
        ensures share { share self.new.pass ≡ share self.old.pass }
        ensures number { self.new.number ≡ self.old.number }
        ensures turn { TakesTurns 1 self.old.pass self.new.pass }
    {
        let mut held = gate.enter(rt, &mut self.pass);
        if held.book().list.is_empty() {
            thread::sleep(rt, pause);
        }
        held.book().add(self.number);
        gate.leave(&mut self.pass, held);
    }

    /// Takes so many turns.
    pub fn take_turns<R: Wait + Clock>(
        &mut self,
        rt: &R,
        gate: &Gate<Numbers>,
        turns: u64,
        pause: Duration,
    )
        requires ready { IsReady gate.now self.old.pass }
        requires left { turns ≤ turns_left self.old.pass }
        ensures ready { IsReady gate.now self.new.pass }
        ensures left { turns_left self.new.pass + turns ≡ turns_left self.old.pass }
        ensures share { share self.new.pass ≡ share self.old.pass }
        ensures number { self.new.number ≡ self.old.number }
        ensures turns { TakesTurns turns self.old.pass self.new.pass }
    {
        for _turn in 0..turns {
            self.take_turn(rt, gate, pause);
        }
    }
}

/// So many callers, each with so many turns, which the pass gives away.
fn split_all(
    alloc: Global,
    gate: &Gate<Numbers>,
    pass: &mut Pass<Numbers>,
    clients: u64,
    turns: u64,
) -> Result<Vec<Client>, NoMemory>
    requires ready { IsReady gate.now pass.old }
    requires some { 1 ≤ turns }
    requires left { (clients * turns < share pass.old) × (turns_left pass.old ≡ share pass.old) }
    ensures ready { IfOk result (λ v. All (λ c. IsFresh turns gate.now c.pass) v.items) }
    ensures count { IfOk result (λ v. length v.items ≡ clients) }
    ensures pass { IfOk result
        (λ _. IsReady gate.now pass.new × (share pass.new + clients * turns ≡ share pass.old)) }
    ensures left { IfOk result (λ _. turns_left pass.new + clients * turns ≡ turns_left pass.old) }
    ensures turns { (view pass.new).turns ≡ (view pass.old).turns }
{
    let mut all = Vec::new(alloc);
    for number in 0..clients {
        let pass = gate.split(pass, turns);
        all.push(Client { pass, number })?;
    }
    Ok(all)
}

/// The callers after all their turns, which they take in up to sixteen threads.
fn serve_all<R: Threads + Wait + Clock + Sync>(
    rt: &R,
    gate: &Gate<Numbers>,
    mut clients: Vec<Client>,
    turns: u64,
    pause: Duration,
) -> Vec<Client>
    requires { All (λ c. IsFresh turns gate.now c.pass) clients.items }
    ensures ready { All (λ c. IsReady gate.now c.pass × (share c.pass ≡ turns)) result.items }
    ensures spent { All (λ c. IsSpent c.pass) result.items }
    ensures count { length result.items ≡ length clients.items }
{
    thread::for_each_mut(
        rt,
        clients.as_mut_slice(),
        16,
        &|_, client| { client.take_turns(rt, gate, turns, pause) },
    );
    clients
}

fn join_all(gate: &Gate<Numbers>, pass: &mut Pass<Numbers>, mut clients: Vec<Client>)
    requires ready { IsReady gate.now pass.old × All (λ c. IsReady gate.now c.pass) clients.items }
    requires added { HasAdded pass.old × All (λ c. HasAdded c.pass) clients.items }
    ensures ready { IsReady gate.now pass.new }
    ensures share { share pass.new ≡ share pass.old + sum_by (λ c. share c.pass) clients.items }
    ensures left { turns_left pass.new
        ≡ turns_left pass.old + sum_by (λ c. turns_left c.pass) clients.items }
    ensures added { HasAdded pass.new }
{
    while let Some(client) = clients.pop() {
        gate.join(pass, client.pass);
    }
}

/// How many turns were served, and the book after them.
fn close_all(gate: Gate<Numbers>, mut pass: Pass<Numbers>) -> (u64, Numbers)
    requires ready { IsReady gate pass }
    requires whole { share pass ≡ turns_given gate }
    requires empty { ((opened gate).list.items ≡ []) × ((opened gate).refused ≡ 0) }
    ensures name { result.1.name ≡ (opened gate).name }
    ensures history { IsHistory result.0 result.1 }
    ensures served { result.0 + turns_left pass ≡ turns_given gate }
    ensures book { HasAdded pass → length result.1.list.items + result.1.refused ≡ result.0 }
{
    let served = gate.meet(&mut pass);
    (served, gate.close(pass))
}

/// So many clients take so many turns each, in up to sixteen threads. It answers how many turns
/// were served, and the book after them.
pub fn run_all<R: Threads + Wait + Clock + Sync>(
    rt: &R,
    alloc: Global,
    clients: u64,
    turns: u64,
    pause: Duration,
) -> Result<(u64, Numbers), NoMemory>
    requires some { 1 ≤ turns }
    requires few { clients * turns < 2 ^ 62 }
    ensures name { IfOk result (λ r. r.1.name ≡ 7) }
    ensures history { IfOk result (λ r. IsHistory r.0 r.1) }
    ensures served { IfOk result (λ r. r.0 ≡ clients * turns) }
    ensures book { IfOk result (λ r. length r.1.list.items + r.1.refused ≡ clients * turns) }
{
    let book = Numbers::new(alloc, 7);
    let (gate, mut pass) = match Gate::new(alloc, book, clients * turns + 1) {
        Ok(made) => made,
        Err((_book, refused)) => return Err(refused),
    };
    let all = split_all(alloc, &gate, &mut pass, clients, turns)?;
    let all = serve_all(rt, &gate, all, turns, pause);
    join_all(&gate, &mut pass, all);
    Ok(close_all(gate, pass))
}
