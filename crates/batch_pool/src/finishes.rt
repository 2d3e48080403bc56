//! The workers come back, and what they took is added up.

ghost use Rattle.std.specs.Prelude.{◌≡◌, ◌+◌, ◌-◌, ◌<◌, ◌≤◌, ◌++◌, ℕ, [], All, length, map};
ghost use Rattle.std.specs.Prelude.{vec_capacity, vec_len};
ghost use Rattle.crossbeam_queue.specs.Passes.{IsPassOf};
ghost use Rattle.batch_pool.specs.Batches.{AreMatched, IsServed, places};
ghost use Rattle.batch_pool.specs.Hands.{hand, knows, weigh};
ghost use Rattle.batch_pool.specs.Shifts.{IsBack, served_of, weigh_all};
ghost use Rattle.batch_pool.specs.declared.workers.TheConstants.{MAX_WORKERS_AT_ONCE};

use crate::hands::{Cut, Hand, Line};
use crate::jobs::Job;
use crate::rooms::{last_of, reversed};
use crate::shifts::{Shift, work};
use crate::workers::{Served, Worker};
use crossbeam_queue::Pass;
use rail_types::{List, Name};
use std::sync::Wait;

/// After the threads: all passes are joined to one, by which the last worker looks once more. It
/// finds the queue empty, so each place was answered as often as it was to do.
pub(crate) fn finish<R: Wait, W: Worker>(
    rt: &R,
    line: &Line,
    lines: &[Name],
    todo: &[u32],
    mut pass: Pass<u32, Hand>,
    mut jobs: Vec<Job<W>>,
    served: Vec<Served<W>>,
) -> Vec<Served<W>>
    requires texts { All W.is_line lines.now }
    requires below { All (λ at. at < length lines.now) todo.now }
    requires pass { IsPassOf line.now pass }
    requires parts { knows pass ≡ hand (1024 - length jobs.items) todo.now [] }
    requires some { 1 ≤ length jobs.items }
    requires few { length jobs.items ≤ MAX_WORKERS_AT_ONCE }
    requires passes { All (λ job. IsPassOf line.now job.pass) jobs.items }
    requires back { All (IsBack W.left W.is_sound todo.now) jobs.items }
    requires served { served.items ≡ [] }
    requires space { length jobs.items ≤ vec_capacity served }
    ensures once { (h : ℕ → ℕ) → weigh h todo.now ≡ weigh_all h result.items }
    ensures served { (workers : _) → AreMatched (IsServed W.gives W.left lines.now) workers
        (map (λ job. served_of job.shift) jobs.items)
        → AreMatched (IsServed W.gives W.left lines.now) workers result.items }
    ensures sound { All (λ s. W.is_sound s.worker) result.items }
{
    let last = last_of(&mut jobs);
    let mut served = gather(line, &mut pass, jobs, served);
    let Job {
        mut shift,
        pass: other,
    } = last;
    line.absorb::<Cut>(&mut pass, other);
    work(rt, line, lines, &mut pass, &mut shift);
    served.push_reserved(serve(shift));
    served
}

// Joins the passes of the jobs to one, and keeps the workers, in their order.
fn gather<W: Worker>(
    line: &Line,
    pass: &mut Pass<u32, Hand>,
    jobs: Vec<Job<W>>,
    mut served: Vec<Served<W>>,
) -> Vec<Served<W>>
    requires pass { IsPassOf line.now pass.old }
    requires part { 0 < (knows pass.old).parts }
    requires passes { All (λ job. IsPassOf line.now job.pass) jobs.items }
    requires parts { All (λ job. (knows job.pass).parts ≡ 1) jobs.items }
    requires taken { All (λ job. (h : ℕ → ℕ) → weigh h (knows job.pass).taken
        ≡ weigh h (places job.shift.answers.items)) jobs.items }
    requires served { served.items ≡ [] }
    requires space { length jobs.items < vec_capacity served }
    ensures pass { IsPassOf line.now pass.new }
    ensures parts { (knows pass.new).parts ≡ (knows pass.old).parts + length jobs.items }
    ensures put { (knows pass.new).put ≡ (knows pass.old).put }
    ensures taken { (h : ℕ → ℕ) → weigh h (knows pass.new).taken
        ≡ weigh h (knows pass.old).taken + weigh_all h result.items }
    ensures served { result.items ≡ map (λ job. served_of job.shift) jobs.items }
    ensures space { vec_len result < vec_capacity result }
{
    let mut jobs = reversed(jobs);
    while let Some(job) = jobs.pop() {
        let Job { shift, pass: other } = job;
        line.absorb::<Cut>(pass, other);
        served.push_reserved(serve(shift));
    }
    served
}

fn serve<W: Worker>(shift: Shift<W>) -> Served<W>
    ensures { result ≡ served_of shift }
{
    Served {
        worker: shift.worker,
        answers: List::from_vec(shift.answers),
    }
}
