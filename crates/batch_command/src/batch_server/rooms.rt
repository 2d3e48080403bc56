//! Room for what comes of a list, made before its first line is answered.

ghost use Rattle.std.specs.Prelude.{◌≡◌, ◌≤◌, [], IfOk, length, replicate, vec_capacity};
ghost use Rattle.batch_command.specs.Clerks.{free_places};
ghost use Rattle.batch_command.specs.Rooms.{IsRoomFor};
ghost use Rattle.served_clients.specs.sessions.declared.sessions.TheConstants.{MAX_LINES};

use crate::batch_server::clerks::Clerk;
use crate::batch_server::members::Worked;
use crate::list_replies::empty_texts;
use batch_pool::{Room as Pool, room_for as pool_for};
use no_memory::NoMemory;
use outside_io::{Between, Disk};
use rail_types::List;
use served_clients::admission::Rule;
use served_clients::lines::reply_texts::Reply;
use std::alloc::Global;

/// The places of the lines that are no worker's, and room: for the answers to the other lines, for
/// the workers as they are left, for what each answered of the lines that are no worker's, for the
/// texts of all replies, and for the batch itself.
#[derive(Drop)]
pub(crate) struct Room<'a, D: Disk + Send, B: Between + Send + Drop, L: Rule + Send + Drop> {
    pub(crate) todo: Vec<u32>,
    pub(crate) kept: Vec<(u32, Reply)>,
    pub(crate) worked: Vec<Worked<L>>,
    pub(crate) parts: Vec<List<(u32, Reply)>>,
    pub(crate) texts: Vec<List<u8>>,
    pub(crate) pool: Pool<Clerk<'a, D, B, L>>,
}

/// Room for so many workers and for the lines of these owners.
pub(crate) fn room_for<'a, D: Disk + Send, B: Between + Send + Drop, L: Rule + Send + Drop>(
    alloc: Global,
    workers: usize,
    owners: &[Option<u32>],
) -> Result<Room<'a, D, B, L>, NoMemory>
    requires { length owners.now ≤ MAX_LINES }
    ensures { IfOk result (IsRoomFor workers owners.now) }
{
    let of_lines = line_room(alloc, owners)?;
    let of_workers = worker_room(alloc, workers)?;
    let pool = pool_for(alloc, workers, of_lines.todo.len())?;
    let LineRoom { todo, kept, texts } = of_lines;
    let WorkerRoom { worked, parts } = of_workers;
    Ok(Room {
        todo,
        kept,
        worked,
        parts,
        texts,
        pool,
    })
}

// The places of the lines that are no worker's, and room: for the answers to the others, and for
// the texts of all replies.
#[derive(Drop)]
struct LineRoom {
    todo: Vec<u32>,
    kept: Vec<(u32, Reply)>,
    texts: Vec<List<u8>>,
}

// Room for the lines of these owners.
fn line_room(alloc: Global, owners: &[Option<u32>]) -> Result<LineRoom, NoMemory>
    requires { length owners.now ≤ MAX_LINES }
    ensures todo { IfOk result (λ room. room.todo.items ≡ free_places owners.now) }
    ensures kept { IfOk result (λ room. room.kept.items ≡ []) }
    ensures space { IfOk result (λ room. length owners.now ≤ vec_capacity room.kept) }
    ensures texts { IfOk result (λ room. room.texts.items ≡ replicate (length owners.now) []) }
{
    let todo = free_places(alloc, owners)?;
    let kept = Vec::with_capacity(alloc, owners.len())?;
    let texts = empty_texts(alloc, owners.len())?;
    Ok(LineRoom { todo, kept, texts })
}

// Room for workers as they are left, and for what each answered of the lines that are no worker's.
#[derive(Drop)]
struct WorkerRoom<L: Rule> {
    worked: Vec<Worked<L>>,
    parts: Vec<List<(u32, Reply)>>,
}

// Room for so many workers.
fn worker_room<L: Rule>(alloc: Global, workers: usize) -> Result<WorkerRoom<L>, NoMemory>
    ensures worked { IfOk result (λ room. room.worked.items ≡ []) }
    ensures each { IfOk result (λ room. workers ≤ vec_capacity room.worked) }
    ensures parts { IfOk result (λ room. room.parts.items ≡ []) }
    ensures space { IfOk result (λ room. workers ≤ vec_capacity room.parts) }
{
    let worked = Vec::with_capacity(alloc, workers)?;
    let parts = Vec::with_capacity(alloc, workers)?;
    Ok(WorkerRoom { worked, parts })
}

// The places of the lines that are no worker's.
fn free_places(alloc: Global, owners: &[Option<u32>]) -> Result<Vec<u32>, NoMemory>
    requires { length owners.now ≤ MAX_LINES }
    ensures { IfOk result (λ places. places.items ≡ free_places owners.now) }
{
    let mut places = Vec::new(alloc);
    for at in 0..owners.len() {
        if owners[at].is_none() {
            places.push(at as u32)?;
        }
    }
    Ok(places)
}
