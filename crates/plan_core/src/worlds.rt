//! The world of clients and one history.

ghost use Rattle.std.specs.Prelude.{◌≡◌, ◌↔◌, ◌<◌, ℕ, IfOk, IsTrue, OnErr, OnOk, length};
ghost use Rattle.std.specs.Prelude.{option_map, slice_get, take};
ghost use Rattle.rail_types.specs.declared.entries.Entry.{Entry as entry_type};
ghost use Rattle.rail_types.specs.Timetables.{IsTimetable, timetable_of};
ghost use Rattle.plan_core.specs.declared.events.Event.TheVariants.{Commit as does_commit};
ghost use Rattle.plan_core.specs.declared.events.Event.TheVariants.{Crash as does_crash};
ghost use Rattle.plan_core.specs.declared.events.Event.TheVariants.{Fault as does_fault};
ghost use Rattle.plan_core.specs.declared.events.Event.TheVariants.{Free as does_free};
ghost use Rattle.plan_core.specs.declared.events.Event.TheVariants.{Open as does_open};
ghost use Rattle.plan_core.specs.declared.events.Event.TheVariants.{Seek as does_seek};
ghost use Rattle.plan_core.specs.declared.events.Event.TheVariants.{Settle as does_settle};
ghost use Rattle.plan_core.specs.declared.events.Event.TheVariants.{Turn as does_turn};
ghost use Rattle.plan_core.specs.Events.{after, begun, IsEnabled, read, stopped, without_last};
ghost use Rattle.plan_core.specs.Events.{written};
ghost use Rattle.plan_core.specs.Inside.{Agrees, Does, IsOwner};
ghost use Rattle.plan_core.specs.Runs.{Runs};
ghost use Rattle.plan_core.specs.Sound.{IsSound};
ghost use Rattle.plan_core.specs.Worlds.{first_world, HasSearched, IsOf, IsServed, IsSettled};
ghost use Rattle.plan_core.specs.Worlds.{MayCommit, MayFree, MayWrite};

use crate::clients::{Client, lose_all, make_room, new_clients, note, restart_all, seek, write};
use crate::joining::{is_asked, join, joins, lose_last, takes};
use crate::{Event, Note};
use grant_journal::Stage;
use grant_log::History;
use grant_log::copy_since::{bring_up, copy_of};
use no_memory::NoMemory;
use occupation_book::Occupations;
use rail_types::{Base, Entry, Name, Network};
use std::alloc::Global;
use std::marker::Model;

/// One history, of which all entries but perhaps the last are settled,
/// and the clients that write it.
#[derive(Drop)]
pub struct World {
    alloc: Global,
    history: History,
    // The claims that are live among the settled entries.
    claims: Occupations,
    settled: u64,
    up: bool,
    clients: Vec<Client>,
}

impl Model for World {
    ghost use Rattle.plan_core.specs.Inside.{AreOne, plan_of};
    ghost use Rattle.plan_core.specs.Worlds.{Plan};

    ghost Value = { Plan };

    ghost view = { λ w. plan_of w.history w.settled w.up w.clients.items };

    ghost invariant = { λ w. AreOne w.history w.claims w.settled w.up w.clients.items };
}

impl World {
    /// The world at its beginning: it runs, on the empty history of a network and of a base
    /// timetable on it, with so many clients that know nothing.
    pub fn new(alloc: Global, net: Network, base: Base, clients: u32) -> Result<World, NoMemory>
        requires { IsTimetable (timetable_of net base) }
        ensures { IfOk result (λ world. world ≡ first_world (timetable_of net base) clients) }
    {
        let history = History::new(alloc, net, base);
        let claims = copy_of(alloc, &history)?;
        let clients = new_clients(alloc, clients)?;
        Ok(World {
            alloc,
            history,
            claims,
            settled: 0,
            up: true,
            clients,
        })
    }

    /// Does what an event does where it may come, and answers whether it may.
    pub fn step(&mut self, event: &Event) -> Result<bool, NoMemory>
        ensures enabled { IfOk result (λ done. IsTrue done ↔ IsEnabled self.old event.now) }
        ensures effect { IfOk result (λ done. IsTrue done → self.new ≡ after self.old event.now) }
        ensures idle { IfOk result (λ done. (¬ IsTrue done) → self.new ≡ self.old) }
        ensures err { OnErr result (self.new ≡ self.old) }
    {
        match event {
            Event::Turn { client } => self.turn(*client),
            Event::Seek { client } => Ok(self.seek(*client)),
            Event::Commit { client, entry } => self.commit(*client, entry),
            Event::Free { client, entry } => self.free(*client, entry),
            Event::Fault {
                client,
                entry,
                stage,
            } => self.fault(*client, entry, *stage),
            Event::Settle { done } => self.settle(*done),
            Event::Crash { keeps_last } => Ok(self.crash(*keeps_last)),
            Event::Open => self.open(),
        }
    }

    /// Takes events in turn, each as `step` does. For want of memory it stops between two of them.
    pub fn run(&mut self, events: &[Event]) -> Result<(), NoMemory>
        ensures all { OnOk result (Runs self.old events.now self.new) }
        ensures some { OnErr result ((count : ℕ) × Runs self.old (take count events.now) self.new) }
    {
        for event in events {
            self.step(event)?;
        }
        Ok(())
    }

    /// The history.
    pub fn history(&self) -> &History
        ensures timetable { result.now.timetable ≡ self.now.timetable }
        ensures entries { result.now.entries ≡ self.now.entries }
    {
        &self.history
    }

    /// How many entries are settled.
    pub fn settled(&self) -> u64
        ensures settled { result ≡ self.now.settled }
        ensures sound { IsSound self.now }
    {
        self.settled
    }

    /// Whether the world runs.
    pub fn is_up(&self) -> bool
        ensures { result ≡ self.now.up }
    {
        self.up
    }

    /// The front that a client knows, None where the world does not have the client.
    pub fn front(&self, client: u32) -> Option<u64>
        ensures { result ≡ option_map (λ party. party.front) (slice_get self.now.clients client) }
    {
        Some(self.clients.get(client as usize)?.front())
    }

    /// The front that a client searched, if any; None where the world does not have the client.
    pub fn searched(&self, client: u32) -> Option<Option<u64>>
        ensures { result
            ≡ option_map (λ party. party.searched) (slice_get self.now.clients client) }
    {
        Some(self.clients.get(client as usize)?.searched())
    }

    /// The notes of a client, None where the world does not have the client.
    pub fn log(&self, client: u32) -> Option<&[Note]>
        ensures { option_map (λ log. log.now) result
            ≡ option_map (λ party. party.log) (slice_get self.now.clients client) }
    {
        Some(self.clients.get(client as usize)?.log())
    }

    fn turn(&mut self, client: u32) -> Result<bool, NoMemory>
        ensures does { IfOk result (λ done. Does self.old (does_turn client) done self.new) }
        ensures err { OnErr result (self.new ≡ self.old) }
    {
        if !self.serves(client) || !self.is_settled() {
            return Ok(false);
        }
        self.read(client)?;
        Ok(true)
    }

    fn seek(&mut self, client: u32) -> bool
        ensures { Does self.old (does_seek client) result self.new }
    {
        if !self.serves(client) {
            return false;
        }
        seek(&mut self.clients, client);
        true
    }

    fn commit(&mut self, client: u32, entry: &Entry) -> Result<bool, NoMemory>
        ensures does { IfOk result
            (λ done. Does self.old (does_commit client entry.now) done self.new) }
        ensures err { OnErr result (self.new ≡ self.old) }
    {
        if !self.may_commit(client, entry)? {
            return Ok(false);
        }
        self.write(client, entry)?;
        Ok(true)
    }

    fn free(&mut self, client: u32, entry: &Entry) -> Result<bool, NoMemory>
        ensures does { IfOk result
            (λ done. Does self.old (does_free client entry.now) done self.new) }
        ensures err { OnErr result (self.new ≡ self.old) }
    {
        if !self.may_free(client, entry)? {
            return Ok(false);
        }
        self.write(client, entry)?;
        Ok(true)
    }

    fn fault(&mut self, client: u32, entry: &Entry, stage: Stage) -> Result<bool, NoMemory>
        ensures does { IfOk result (λ done.
            Does self.old (does_fault client entry.now stage) done self.new) }
        ensures err { OnErr result (self.new ≡ self.old) }
    {
        if !self.may_commit(client, entry)? && !self.may_free(client, entry)? {
            return Ok(false);
        }
        match stage {
            Stage::Record => self.read(client)?,
            Stage::Gate => self.begin(client, entry)?,
        }
        Ok(true)
    }

    fn settle(&mut self, done: bool) -> Result<bool, NoMemory>
        ensures does { IfOk result (λ may. Does self.old (does_settle done) may self.new) }
        ensures err { OnErr result (self.new ≡ self.old) }
    {
        if !self.up || self.is_settled() {
            return Ok(false);
        }
        if done {
            self.settle_all()?;
        }
        Ok(true)
    }

    fn crash(&mut self, keeps_last: bool) -> bool
        ensures { Does self.old (does_crash keeps_last) result self.new }
    {
        if !self.up {
            return false;
        }
        if keeps_last || self.is_settled() {
            self.stop();
        } else {
            self.stop_without_last();
        }
        true
    }

    fn open(&mut self) -> Result<bool, NoMemory>
        ensures does { IfOk result (λ done. Does self.old does_open done self.new) }
        ensures err { OnErr result (self.new ≡ self.old) }
    {
        if self.up {
            return Ok(false);
        }
        self.settle_all()?;
        self.up = true;
        Ok(true)
    }

    // Whether the world runs and has this client.
    fn serves(&self, client: u32) -> bool
        ensures { IsTrue result ↔ IsServed self.now client }
    {
        self.up && (client as usize) < self.clients.len()
    }

    // Whether all entries are settled.
    fn is_settled(&self) -> bool
        ensures { IsTrue result ↔ IsSettled self.now }
    {
        self.settled == self.history.front()
    }

    // Whether the client has a searched front.
    fn has_searched(&self, client: u32) -> bool
        ensures { IsTrue result ↔ HasSearched self.now client }
    {
        matches!(self.searched(client), Some(Some(_)))
    }

    // Whether the client may write a hold or a grant.
    fn may_commit(&self, client: u32, entry: &Entry) -> Result<bool, NoMemory>
        ensures { IfOk result (λ yes. IsTrue yes ↔ MayCommit self.now client entry.now) }
    {
        if !takes(&entry.deed) || (is_asked(&entry.deed) && !self.has_searched(client)) {
            return Ok(false);
        }
        self.may_write(client, entry)
    }

    // Whether the client may write a Free.
    fn may_free(&self, client: u32, entry: &Entry) -> Result<bool, NoMemory>
        ensures { IfOk result (λ yes. IsTrue yes ↔ MayFree self.now client entry.now) }
    {
        if takes(&entry.deed) {
            return Ok(false);
        }
        self.may_write(client, entry)
    }

    // Whether all is settled, and the entry is the client's and joins the history.
    fn may_write(&self, client: u32, entry: &Entry) -> Result<bool, NoMemory>
        ensures { IfOk result (λ yes. IsTrue yes ↔ MayWrite self.now client entry.now) }
    {
        if !self.serves(client) || !self.is_settled() || !self.is_of(client, &entry.owner) {
            return Ok(false);
        }
        joins(self.alloc, &self.history, &self.claims, entry)
    }

    // Whether an entry of this owner is the client's. The entries that a client's notes name have
    // one owner, so that of each client the first tells.
    fn is_of(&self, client: u32, owner: &Name) -> bool
        requires { client < length self.now.clients }
        ensures { (entry : entry_type) → entry.owner ≡ owner.now →
            (IsTrue result ↔ IsOf self.now client entry) }
    {
        for another in 0..self.clients.len() {
            if !self.agrees(another, client, owner) {
                return false;
            }
        }
        true
    }

    // Whether the entries of another client bear this name just where it is the client itself.
    fn agrees(&self, another: usize, client: u32, owner: &Name) -> bool
        requires { another < length self.now.clients }
        ensures { IsTrue result ↔ Agrees self.now client owner.now another }
    {
        match self.clients[another].first() {
            Some(at) => self.is_owner(at, owner) == (another == client as usize),
            None => true,
        }
    }

    // Whether the entry at a position bears this name.
    fn is_owner(&self, at: u64, owner: &Name) -> bool
        ensures { IsTrue result ↔ IsOwner self.now.entries at owner.now }
    {
        match self.history.entry(at) {
            Some(entry) => entry.owner.is_same(owner),
            None => false,
        }
    }

    // The client reads the history, and notes its front.
    fn read(&mut self, client: u32) -> Result<(), NoMemory>
        requires has { client < length self.old.clients }
        requires settled { IsSettled self.old }
        ensures ok { OnOk result (self.new ≡ read self.old client) }
        ensures err { OnErr result (self.new ≡ self.old) }
    {
        make_room(&mut self.clients, client)?;
        note(&mut self.clients, client, self.history.front(), None);
        Ok(())
    }

    // The client writes an entry, which is settled.
    fn write(&mut self, client: u32, entry: &Entry) -> Result<(), NoMemory>
        requires { MayWrite self.old client entry.now }
        ensures ok { OnOk result (self.new ≡ written self.old client entry.now) }
        ensures err { OnErr result (self.new ≡ self.old) }
    {
        make_room(&mut self.clients, client)?;
        let copy = entry.copy(self.alloc)?;
        let at = self.history.front();
        join(self.alloc, &mut self.history, &mut self.claims, copy)?;
        self.settled = self.history.front();
        write(&mut self.clients, client, self.settled, at);
        Ok(())
    }

    // The client writes an entry, which is not settled.
    fn begin(&mut self, client: u32, entry: &Entry) -> Result<(), NoMemory>
        requires { MayWrite self.old client entry.now }
        ensures ok { OnOk result (self.new ≡ begun self.old client entry.now) }
        ensures err { OnErr result (self.new ≡ self.old) }
    {
        make_room(&mut self.clients, client)?;
        self.history.reserve()?;
        let copy = entry.copy(self.alloc)?;
        let at = self.history.front();
        self.history.push(copy);
        note(&mut self.clients, client, self.history.front(), Some(at));
        Ok(())
    }

    // All entries are settled.
    fn settle_all(&mut self) -> Result<(), NoMemory>
        ensures ok { OnOk result
            (self.new ≡ record self.old { settled = length self.old.entries }) }
        ensures err { OnErr result (self.new ≡ self.old) }
    {
        bring_up(self.alloc, &self.history, self.settled, &mut self.claims)?;
        self.settled = self.history.front();
        Ok(())
    }

    // The world stops.
    fn stop(&mut self)
        ensures { self.new ≡ stopped self.old }
    {
        restart_all(&mut self.clients, self.history.front());
        self.up = false;
    }

    // The world stops, and the last entry is lost.
    fn stop_without_last(&mut self)
        requires { self.old.settled < length self.old.entries }
        ensures { self.new ≡ stopped (without_last self.old) }
    {
        let last = self.history.front() - 1;
        lose_last(&mut self.history);
        lose_all(&mut self.clients, last);
        restart_all(&mut self.clients, last);
        self.up = false;
    }
}
