//! A batch.

ghost use Rattle.std.specs.Prelude.{◌≡◌, ◌<◌, ◌≤◌, [], All, IfErr, IfOk, IsPermutation, length};
ghost use Rattle.std.specs.Prelude.{vec_capacity};
ghost use Rattle.crossbeam_queue.specs.Passes.{IsPassOf};
ghost use Rattle.batch_pool.specs.Batches.{all_places, AreMatched, IsServed};
ghost use Rattle.batch_pool.specs.Hands.{hand, knows};
ghost use Rattle.batch_pool.specs.Rooms.{IsRoomFor};
ghost use Rattle.batch_pool.specs.declared.workers.TheConstants.{MAX_WORKERS_AT_ONCE};

use crate::finishes::finish;
use crate::jobs::{Job, split_all, work_all};
use crate::puts::put_all;
use crate::rooms::{Queue, Room, reversed, room_for};
use crate::workers::{Served, Worker};
use no_memory::NoMemory;
use rail_types::{List, Name};
use std::alloc::Global;
use std::sync::Wait;
use std::thread::Threads;

/// The lines at the places `todo` of the list, answered by 1 to 16 workers at once, each in a
/// thread where one can be made. The workers come back in their order, each with what it
/// answered. Where there is no memory for the answers or for the queue, no line was answered, and
/// the workers are handed back.
pub fn run_batch<R: Threads + Wait + Sync, W: Worker>(
    rt: &R,
    alloc: Global,
    lines: &[Name],
    todo: &[u32],
    workers: Vec<W>,
) -> Result<Vec<Served<W>>, (Vec<W>, NoMemory)>
    requires some { 1 ≤ length workers.items }
    requires few { length workers.items ≤ MAX_WORKERS_AT_ONCE }
    requires sound { All W.is_sound workers.items }
    requires left { All (λ worker. length todo.now ≤ W.left worker) workers.items }
    requires texts { All W.is_line lines.now }
    requires below { All (λ at. at < length lines.now) todo.now }
    // Each place to do is answered by one worker, once, and no other place is.
    ensures once { IfOk result (λ served.
        IsPermutation (all_places served.items) todo.now) }
    ensures served { IfOk result (λ served. AreMatched (IsServed W.gives W.left lines.now)
        workers.items served.items) }
    ensures sound { IfOk result (λ served. All (λ s. W.is_sound s.worker) served.items) }
    ensures refused { IfErr result (λ e. e.0.items ≡ workers.items) }
{
    let Ok(room) = room_for(alloc, workers.len(), todo.len()) else {
        return Err((workers, NoMemory));
    };
    let served = answer_batch(rt, lines, todo, workers, room);
    Ok(served)
}

/// The same in room that is there already: no memory is wanted.
pub fn answer_batch<R: Threads + Wait + Sync, W: Worker>(
    rt: &R,
    lines: &[Name],
    todo: &[u32],
    workers: Vec<W>,
    room: Room<W>,
) -> Vec<Served<W>>
    requires some { 1 ≤ length workers.items }
    requires few { length workers.items ≤ MAX_WORKERS_AT_ONCE }
    requires sound { All W.is_sound workers.items }
    requires left { All (λ worker. length todo.now ≤ W.left worker) workers.items }
    requires texts { All W.is_line lines.now }
    requires below { All (λ at. at < length lines.now) todo.now }
    requires room { IsRoomFor (length workers.items) (length todo.now) room }
    ensures once { IsPermutation (all_places result.items) todo.now }
    ensures served { AreMatched (IsServed W.gives W.left lines.now) workers.items result.items }
    ensures sound { All (λ s. W.is_sound s.worker) result.items }
{
    let Room {
        alloc,
        queue,
        answers,
        jobs,
        served,
    } = room;
    let Some(queue) = queue else {
        return idle(alloc, lines, todo, workers, served);
    };
    answer_all(rt, queue, lines, todo, workers, answers, jobs, served)
}

// All that is to do goes into the queue, and then the workers take it out.
// There is room for all of it.
fn answer_all<R: Threads + Wait + Sync, W: Worker>(
    rt: &R,
    queue: Queue,
    lines: &[Name],
    todo: &[u32],
    workers: Vec<W>,
    rooms: Vec<Vec<(u32, W::Reply)>>,
    jobs: Vec<Job<W>>,
    served: Vec<Served<W>>,
) -> Vec<Served<W>>
    requires some { 1 ≤ length workers.items }
    requires few { length workers.items ≤ MAX_WORKERS_AT_ONCE }
    requires sound { All W.is_sound workers.items }
    requires left { All (λ worker. length todo.now ≤ W.left worker) workers.items }
    requires texts { All W.is_line lines.now }
    requires below { All (λ at. at < length lines.now) todo.now }
    requires pass { IsPassOf queue.line queue.pass × (knows queue.pass ≡ hand 1024 [] []) }
    requires rooms { length rooms.items ≡ length workers.items }
    requires empty { All (λ room. room.items ≡ []) rooms.items }
    requires room { All (λ room. vec_capacity room ≡ length todo.now) rooms.items }
    requires jobs { (jobs.items ≡ []) × (length workers.items ≤ vec_capacity jobs) }
    requires served { (served.items ≡ []) × (length workers.items ≤ vec_capacity served) }
    ensures once { IsPermutation (all_places result.items) todo.now }
    ensures served { AreMatched (IsServed W.gives W.left lines.now) workers.items result.items }
    ensures sound { All (λ s. W.is_sound s.worker) result.items }
{
    let Queue { line, pass } = queue;
    let mut pass = put_all(rt, &line, pass, todo);
    let jobs = split_all(&line, &mut pass, todo, workers, rooms, jobs);
    let jobs = work_all(rt, &line, lines, todo, jobs);
    let served = finish(rt, &line, lines, todo, pass, jobs, served);
    served
}

// Where nothing is to do the workers come back as they are.
fn idle<W: Worker>(
    alloc: Global,
    lines: &[Name],
    todo: &[u32],
    workers: Vec<W>,
    mut served: Vec<Served<W>>,
) -> Vec<Served<W>>
    requires none { todo.now ≡ [] }
    requires sound { All W.is_sound workers.items }
    requires served { (served.items ≡ []) × (length workers.items ≤ vec_capacity served) }
    ensures once { IsPermutation (all_places result.items) todo.now }
    ensures served { AreMatched (IsServed W.gives W.left lines.now) workers.items result.items }
    ensures sound { All (λ s. W.is_sound s.worker) result.items }
{
    let mut workers = reversed(workers);
    while let Some(worker) = workers.pop() {
        let one = unasked(alloc, worker);
        served.push_reserved(one);
    }
    served
}

fn unasked<W: Worker>(alloc: Global, worker: W) -> Served<W>
    ensures worker { result.worker ≡ worker }
    ensures answers { result.answers ≡ [] }
{
    Served {
        worker,
        answers: List::new(alloc),
    }
}
