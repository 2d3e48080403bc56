//! A client of a world.

ghost use Rattle.std.specs.Prelude.{◌≡◌, ◌+◌, ◌<◌, ◌≤◌, ◌||◌, [], All, IfOk, None, OnOk, length};
ghost use Rattle.std.specs.Prelude.{map, replicate, slice_get, vec_capacity, vec_len};
ghost use Rattle.plan_core.specs.Inside.{first_but, HasRoom, IsAtLast, IsOnlyLast, party_of};
ghost use Rattle.plan_core.specs.Parties.{changed_at, is_at, losing, marked, noting, positions};
ghost use Rattle.plan_core.specs.Parties.{restarting, seeking, writing};

use crate::notes::Note;
use no_memory::NoMemory;
use std::alloc::Global;
use std::marker::Model;

// A client, the first position that its notes name which is not lost, and for how
// many more notes there is room.
#[derive(Drop)]
pub(crate) struct Client {
    front: u64,
    searched: Option<u64>,
    log: Vec<Note>,
    first: Option<u64>,
    room: usize,
}

impl Model for Client {
    ghost use Rattle.std.specs.Prelude.{◌≡◌, ◌+◌, ◌≤◌, slice_get, vec_capacity, vec_len};
    ghost use Rattle.plan_core.specs.Inside.{Desk};
    ghost use Rattle.plan_core.specs.Parties.{positions};

    ghost Value = { Desk };

    ghost view = { λ a. record {
      party = record { front = a.front; searched = a.searched; log = a.log.items };
      room = a.room;
    } };

    ghost invariant = { λ a. record {
      first : a.first ≡ slice_get (positions a.log.items) 0;
      listed : vec_len a.log + a.room ≤ vec_capacity a.log;
    } };
}

impl Client {
    // A client that knows nothing.
    pub(crate) fn new(alloc: Global) -> Client
        ensures party { result.party ≡ record { front = 0; searched = None; log = [] } }
    {
        Client {
            front: 0,
            searched: None,
            log: Vec::new(alloc),
            first: None,
            room: 0,
        }
    }

    pub(crate) fn front(&self) -> u64
        ensures { result ≡ self.now.party.front }
    {
        self.front
    }

    pub(crate) fn searched(&self) -> Option<u64>
        ensures { result ≡ self.now.party.searched }
    {
        self.searched
    }

    pub(crate) fn log(&self) -> &[Note]
        ensures { result.now ≡ self.now.party.log }
    {
        &self.log
    }

    // The first position that its notes name which is not lost.
    pub(crate) fn first(&self) -> Option<u64>
        ensures { result ≡ slice_get (positions self.now.party.log) 0 }
    {
        self.first
    }

    // Makes room for one note more.
    pub(crate) fn reserve(&mut self) -> Result<(), NoMemory>
        ensures party { self.new.party ≡ self.old.party }
        ensures room { OnOk result (1 ≤ self.new.room) }
    {
        if self.room == 0 {
            self.log.reserve(1)?;
            self.room = 1;
        }
        Ok(())
    }

    // Notes a front, with the position of an entry or none.
    pub(crate) fn note(&mut self, point: u64, entry: Option<u64>)
        requires room { 1 ≤ self.old.room }
        ensures party { self.new.party ≡ noting point entry self.old.party }
    {
        self.log.push_reserved(Note {
            point,
            entry,
            lost: false,
        });
        self.room -= 1;
        self.front = point;
        self.first = self.first.or(entry);
    }

    // Notes an entry of its own at this position, for which the searched front is used up.
    pub(crate) fn write(&mut self, point: u64, at: u64)
        requires room { 1 ≤ self.old.room }
        requires behind { point ≡ at + 1 }
        ensures party { self.new.party ≡ writing at self.old.party }
    {
        self.note(point, Some(at));
        self.searched = None;
    }

    // Searches the front that it knows.
    pub(crate) fn seek(&mut self)
        ensures party { self.new.party ≡ seeking self.old.party }
    {
        self.searched = Some(self.front);
    }

    // Marks as lost the note that names this position. Only the last note may
    // name it, and none a later one.
    pub(crate) fn lose(&mut self, at: u64)
        requires last { IsAtLast at self.old.party.log }
        ensures party { self.new.party ≡ losing at self.old.party }
    {
        mark_last(&mut self.log, at);
        self.first = other_than(self.first, at);
    }

    // Knows no more than this front, and has searched none.
    pub(crate) fn restart(&mut self, front: u64)
        ensures party { self.new.party ≡ restarting front self.old.party }
    {
        self.front = self.front.min(front);
        self.searched = None;
    }
}

// Makes room for one note more of a client.
pub(crate) fn make_room(clients: &mut Vec<Client>, client: u32) -> Result<(), NoMemory>
    requires { client < length clients.old.items }
    ensures parties { map party_of clients.new.items ≡ map party_of clients.old.items }
    ensures room { OnOk result (HasRoom clients.new.items client) }
{
    clients[client as usize].reserve()
}

// Notes a front of a client, with the position of an entry or none.
pub(crate) fn note(clients: &mut Vec<Client>, client: u32, point: u64, entry: Option<u64>)
    requires { HasRoom clients.old.items client }
    ensures { map party_of clients.new.items
        ≡ changed_at client (noting point entry) (map party_of clients.old.items) }
{
    clients[client as usize].note(point, entry);
}

// Notes an entry of a client, for which its searched front is used up.
pub(crate) fn write(clients: &mut Vec<Client>, client: u32, point: u64, at: u64)
    requires room { HasRoom clients.old.items client }
    requires behind { point ≡ at + 1 }
    ensures { map party_of clients.new.items
        ≡ changed_at client (writing at) (map party_of clients.old.items) }
{
    clients[client as usize].write(point, at);
}

// Lets a client search.
pub(crate) fn seek(clients: &mut Vec<Client>, client: u32)
    requires { client < length clients.old.items }
    ensures { map party_of clients.new.items
        ≡ changed_at client seeking (map party_of clients.old.items) }
{
    clients[client as usize].seek();
}

// So many clients that know nothing.
pub(crate) fn new_clients(alloc: Global, count: u32) -> Result<Vec<Client>, NoMemory>
    ensures { IfOk result (λ all. map party_of all.items ≡
        replicate count (record { front = 0; searched = None; log = [] })) }
{
    let mut all = Vec::new(alloc);
    for _made in 0..count {
        all.push(Client::new(alloc))?;
    }
    Ok(all)
}

// Marks as lost the notes that name this position.
pub(crate) fn lose_all(clients: &mut Vec<Client>, at: u64)
    requires { All (λ desk. IsAtLast at desk.party.log) clients.old.items }
    ensures { map party_of clients.new.items ≡ map (losing at) (map party_of clients.old.items) }
{
    for k in 0..clients.len() {
        clients[k].lose(at);
    }
}

// Lets each client know no more than this front, and have none searched.
pub(crate) fn restart_all(clients: &mut Vec<Client>, front: u64)
    ensures { map party_of clients.new.items
        ≡ map (restarting front) (map party_of clients.old.items) }
{
    for k in 0..clients.len() {
        clients[k].restart(front);
    }
}

// Marks as lost the note that names this position, where only the last note may.
fn mark_last(log: &mut Vec<Note>, at: u64)
    requires { IsOnlyLast at log.old.items }
    ensures items { log.new.items ≡ map (marked at) log.old.items }
    ensures count { vec_len log.new ≡ vec_len log.old }
    ensures room { vec_capacity log.new ≡ vec_capacity log.old }
{
    if let Some(note) = log.last_mut() {
        note.lost = is_lost(note, at);
    }
}

// Whether a note is lost with the entry at this position, or was before.
fn is_lost(note: &Note, at: u64) -> bool
    ensures { result ≡ (note.now.lost || is_at at note.now.entry) }
{
    match note.entry {
        Some(entry) => note.lost || entry == at,
        None => note.lost,
    }
}

// A position, unless it is this one.
fn other_than(first: Option<u64>, at: u64) -> Option<u64>
    ensures { result ≡ first_but at first }
{
    match first {
        Some(position) if position != at => Some(position),
        _ => None,
    }
}
