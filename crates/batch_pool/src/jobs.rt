//! The workers in threads of their own, each with a pass of the queue.

ghost use Rattle.std.specs.Prelude.{◌≡◌, ◌+◌, ◌-◌, ◌<◌, ◌≤◌, ℕ, [], All, length, map};
ghost use Rattle.std.specs.Prelude.{slice_index_or, vec_capacity, vec_len};
ghost use Rattle.crossbeam_queue.specs.Passes.{IsPassOf};
ghost use Rattle.batch_pool.specs.Batches.{AreMatched, IsServed, places};
ghost use Rattle.batch_pool.specs.Hands.{hand, knows, weigh};
ghost use Rattle.batch_pool.specs.Shifts.{IsBack, IsReady, lines_of, served_of};
ghost use Rattle.batch_pool.specs.declared.workers.TheConstants.{MAX_WORKERS_AT_ONCE};

use crate::hands::{Cut, Hand, Line};
use crate::rooms::{last_of, reversed};
use crate::shifts::{Shift, work};
use crate::workers::{MAX_WORKERS_AT_ONCE, Worker};
use crossbeam_queue::Pass;
use rail_types::Name;
use std::sync::Wait;
use std::thread;
use std::thread::Threads;

/// A worker with its pass of the queue.
#[derive(Drop)]
pub(crate) struct Job<W: Worker> {
    pub(crate) shift: Shift<W>,
    pub(crate) pass: Pass<u32, Hand>,
}

/// Gives each worker a pass, and room for its answers. All was put before.
pub(crate) fn split_all<W: Worker>(
    line: &Line,
    pass: &mut Pass<u32, Hand>,
    todo: &[u32],
    workers: Vec<W>,
    mut rooms: Vec<Vec<(u32, W::Reply)>>,
    mut jobs: Vec<Job<W>>,
) -> Vec<Job<W>>
    requires pass { IsPassOf line.now pass.old × (knows pass.old ≡ hand 1024 todo.now []) }
    requires few { length workers.items ≤ MAX_WORKERS_AT_ONCE }
    requires rooms { length rooms.items ≡ length workers.items }
    requires empty { All (λ room. room.items ≡ []) rooms.items }
    requires room { All (λ room. vec_capacity room ≡ length todo.now) rooms.items }
    requires jobs { jobs.items ≡ [] }
    requires space { length workers.items ≤ vec_capacity jobs }
    ensures pass { IsPassOf line.now pass.new }
    ensures parts { knows pass.new ≡ hand (1024 - length workers.items) todo.now [] }
    ensures passes { All (λ job. IsPassOf line.now job.pass) result.items }
    ensures ready { All (IsReady todo.now) result.items }
    ensures workers { map (λ job. job.shift.worker) result.items ≡ workers.items }
{
    let mut workers = reversed(workers);
    while let Some(worker) = workers.pop() {
        let answers = last_of(&mut rooms);
        let pass = line.another::<Cut>(pass);
        let shift = Shift { worker, answers };
        jobs.push_reserved(Job { shift, pass });
    }
    jobs
}

/// All workers answer at once, in up to sixteen threads, until the queue is empty.
pub(crate) fn work_all<R: Threads + Wait + Sync, W: Worker>(
    rt: &R,
    line: &Line,
    lines: &[Name],
    todo: &[u32],
    mut jobs: Vec<Job<W>>,
) -> Vec<Job<W>>
    requires texts { All W.is_line lines.now }
    requires below { All (λ at. at < length lines.now) todo.now }
    requires passes { All (λ job. IsPassOf line.now job.pass) jobs.items }
    requires ready { All (IsReady todo.now) jobs.items }
    requires sound { All (λ job. W.is_sound job.shift.worker) jobs.items }
    requires left { All (λ job. length todo.now ≤ W.left job.shift.worker) jobs.items }
    ensures passes { All (λ job. IsPassOf line.now job.pass) result.items }
    ensures count { length result.items ≡ length jobs.items }
    ensures back { All (IsBack W.left W.is_sound todo.now) result.items }
    ensures served { AreMatched (IsServed W.gives W.left lines.now)
        (map (λ job. job.shift.worker) jobs.items)
        (map (λ job. served_of job.shift) result.items) }
{
    work_each(rt, line, lines, todo, jobs.as_mut_slice());
    jobs
}

fn work_each<R: Threads + Wait + Sync, W: Worker>(
    rt: &R,
    line: &Line,
    lines: &[Name],
    todo: &[u32],
    jobs: &mut [Job<W>],
)
    requires texts { All W.is_line lines.now }
    requires below { All (λ at. at < length lines.now) todo.now }
    requires passes { All (λ job. IsPassOf line.now job.pass) jobs.old }
    requires ready { All (IsReady todo.now) jobs.old }
    requires sound { All (λ job. W.is_sound job.shift.worker) jobs.old }
    requires left { All (λ job. length todo.now ≤ W.left job.shift.worker) jobs.old }
    ensures passes { All (λ job. IsPassOf line.now job.pass) jobs.new }
    ensures back { All (IsBack W.left W.is_sound todo.now) jobs.new }
    ensures served { (k : ℕ) (d : _) → k < length jobs.old
        → IsServed W.gives W.left lines.now (slice_index_or jobs.old k d).shift.worker
        (served_of (slice_index_or jobs.new k d).shift) }
{
    let one = |_: usize, job: &mut Job<W>|
        requires texts { All W.is_line lines.now }
        requires below { All (λ at. at < length lines.now) todo.now }
        requires pass { IsPassOf line.now job.old.pass }
        requires ready { IsReady todo.now job.old }
        requires sound { W.is_sound job.old.shift.worker }
        requires left { length todo.now ≤ W.left job.old.shift.worker }
        ensures pass { IsPassOf line.entry.now job.new.pass }
        ensures back { IsBack W.left W.is_sound todo.entry.now job.new }
        ensures served { IsServed W.gives W.left lines.entry.now job.old.shift.worker
            (served_of job.new.shift) }
    { work_one(rt, line, lines, todo, job) };
    thread::for_each_mut(rt, jobs, MAX_WORKERS_AT_ONCE, &one);
}

fn work_one<R: Wait, W: Worker>(rt: &R, line: &Line, lines: &[Name], todo: &[u32], job: &mut Job<W>)
    requires texts { All W.is_line lines.now }
    requires below { All (λ at. at < length lines.now) todo.now }
    requires pass { IsPassOf line.now job.old.pass }
    requires ready { IsReady todo.now job.old }
    requires sound { W.is_sound job.old.shift.worker }
    requires left { length todo.now ≤ W.left job.old.shift.worker }
    ensures pass { IsPassOf line.now job.new.pass }
    ensures back { IsBack W.left W.is_sound todo.now job.new }
    ensures served { IsServed W.gives W.left lines.now job.old.shift.worker
        (served_of job.new.shift) }
{
    work(rt, line, lines, &mut job.pass, &mut job.shift);
}
