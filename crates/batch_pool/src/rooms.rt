//! Room for a batch, which is all that it takes memory for, and lists that are
//! taken apart from their ends.

ghost use Rattle.std.specs.Prelude.{◌≡◌, ◌≤◌, ◌++◌, ◌∷◌, [], All, IfOk, length, reverse};
ghost use Rattle.std.specs.Prelude.{vec_capacity};
ghost use Rattle.batch_pool.specs.Rooms.{IsQueueFor, IsRoomFor};

use crate::hands::{Hand, Line};
use crate::jobs::Job;
use crate::workers::{Served, Worker};
use crossbeam_queue::Pass;
use no_memory::NoMemory;
use std::alloc::Global;

/// The queue that a batch goes through, with the pass that came with it.
#[derive(Drop)]
pub(crate) struct Queue {
    pub(crate) line: Line,
    pub(crate) pass: Pass<u32, Hand>,
}

/// Room for a batch: its queue, and lists for its workers and their answers.
#[derive(Drop)]
pub struct Room<W: Worker> {
    pub(crate) alloc: Global,
    pub(crate) queue: Option<Queue>,
    pub(crate) answers: Vec<Vec<(u32, W::Reply)>>,
    pub(crate) jobs: Vec<Job<W>>,
    pub(crate) served: Vec<Served<W>>,
}

/// Room for so many workers and so many places that are to do. Where
/// nothing is to do no queue is made.
pub fn room_for<W: Worker>(
    alloc: Global,
    workers: usize,
    places: usize,
) -> Result<Room<W>, NoMemory>
    ensures { IfOk result (IsRoomFor workers places) }
{
    let answers = rooms_for(alloc, workers, places)?;
    let jobs = Vec::with_capacity(alloc, workers)?;
    let served = Vec::with_capacity(alloc, workers)?;
    let queue = queue_for(alloc, places)?;
    Ok(Room {
        alloc,
        queue,
        answers,
        jobs,
        served,
    })
}

// A queue for so many places, and none for no place.
fn queue_for(alloc: Global, places: usize) -> Result<Option<Queue>, NoMemory>
    ensures { IfOk result (IsQueueFor places) }
{
    if places == 0 {
        return Ok(None);
    }
    let Ok((line, pass)) = Line::ruled(alloc, places) else {
        return Err(NoMemory);
    };
    Ok(Some(Queue { line, pass }))
}

/// So many empty lists, each with room for so many answers.
pub(crate) fn rooms_for<X: Drop>(
    alloc: Global,
    lists: usize,
    answers: usize,
) -> Result<Vec<Vec<(u32, X)>>, NoMemory>
    ensures count { IfOk result (λ rooms. length rooms.items ≡ lists) }
    ensures empty { IfOk result (λ rooms. All (λ room. room.items ≡ []) rooms.items) }
    ensures room { IfOk result (λ rooms.
        All (λ room. vec_capacity room ≡ answers) rooms.items) }
{
    let mut rooms = Vec::new(alloc);
    for _made in 0..lists {
        rooms.push(Vec::with_capacity(alloc, answers)?)?;
    }
    Ok(rooms)
}

/// The elements in the other order.
pub(crate) fn reversed<X: Drop>(mut items: Vec<X>) -> Vec<X>
    ensures { result.items ≡ reverse items.items }
{
    items.as_mut_slice().reverse();
    items
}

/// Takes the last element out.
pub(crate) fn last_of<X: Drop>(items: &mut Vec<X>) -> X
    requires { 1 ≤ length items.old.items }
    ensures { items.old.items ≡ items.new.items ++ result ∷ [] }
{
    let Some(item) = items.pop() else {
        unreachable!()
    };
    item
}
