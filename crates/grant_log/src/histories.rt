//! The history of one timetable.

ghost use Rattle.std.specs.Prelude.{◌≡◌, ◌-◌, ◌<◌, ◌≤◌, ◌∷◌, ◌++◌, [], All, length, max, map, None};
ghost use Rattle.std.specs.Prelude.{IfOk, IfSome, IsNone, IsOk, ◌↔◌, OnErr, OnOk, option_map};
ghost use Rattle.std.specs.Prelude.{slice_get, vec_capacity};
ghost use Rattle.rail_types.specs.Timetables.{IsTimetable, timetable_of};
ghost use Rattle.rail_types.specs.Limits.{IsDeedWithinLimits};
ghost use Rattle.rail_types.specs.declared.limits.TheConstants.{MAX_OWNER_BYTES};
ghost use Rattle.occupation_book.specs.Held.{held};
ghost use Rattle.grant_log.specs.Following.{AreLive};
ghost use Rattle.grant_log.specs.Inside.{HasStairway, marked};
ghost use Rattle.grant_log.specs.Live.{claims_of, freed_by, live_claims};
ghost use Rattle.grant_log.specs.Legal.{IsDeedOn, IsInRange, IsLegal, Joins};
ghost use Rattle.grant_log.specs.Verdict.{breaks, place_of, repeat_at, verdict_on, verdict_on_deed};

use crate::clashes::{first_clash, first_in_book};
use crate::keys::{EntryKey, entry_key};
use crate::verdicts::{freed_position, taken_or_fresh, told_again, told_of_free};
use crate::{Verdict, claims_are_on_the_network, grants_keep_their_requests, live, scans};
use blocking_time::{Broken, keeps, the_first_broken_rule_is_told};
use indexmap::IndexSet;
use no_memory::NoMemory;
use occupation_book::Occupations;
use rail_types::{
    Base, Claim, Deed, Entry, Name, Network, Owner, Settings, first_clashes_are_first,
    networks_without_flaws,
};
use std::alloc::Global;
use std::marker::Model;

/// The entries that were taken, in order, with the timetable by which each of them was judged.
#[derive(Drop)]
pub struct History {
    alloc: Global,
    net: Network,
    base: Base,
    entries: Vec<Entry>,
    // The keys of the entries, in their order, so that the place of a key
    // is the position of its entry.
    index: IndexSet<EntryKey>,
    // For each entry the position of the one that frees it.
    freed: Vec<Option<u64>>,
    // For how many entries all three have room, as far as it was asked for.
    room: usize,
}

impl Model for History {
    ghost use Rattle.std.specs.Prelude.{◌≡◌, ◌+◌, ◌≤◌, map, vec_capacity, vec_len};
    ghost use Rattle.indexmap.specs.IndexSet.{spare as room_of};
    ghost use Rattle.rail_types.specs.Timetables.{IsTimetable, timetable_of};
    ghost use Rattle.grant_log.specs.Legal.{IsLegal, Register};
    ghost use Rattle.grant_log.specs.Inside.{TellFreed, key_of};

    ghost Value = { Register };

    ghost view = { λ a. record {
      timetable = timetable_of a.net a.base;
      entries = a.entries.items;
      spare = a.room;
    } };

    ghost invariant = { λ a. record {
      planned : IsTimetable (timetable_of a.net a.base);
      legal : IsLegal (timetable_of a.net a.base) a.entries.items;
      indexed : a.index.keys ≡ map key_of a.entries.items;
      freed : TellFreed a.freed.items a.entries.items;
      listed : vec_len a.entries + a.room ≤ vec_capacity a.entries;
      told : vec_len a.freed + a.room ≤ vec_capacity a.freed;
      room : a.room ≤ room_of a.index;
    } };
}

impl History {
    /// The empty history of a network and of a base timetable on it.
    pub fn new(alloc: Global, net: Network, base: Base) -> History
        requires { IsTimetable (timetable_of net base) }
        ensures timetable { result.timetable ≡ timetable_of net base }
        ensures empty { result.entries ≡ [] }
        ensures room { result.spare ≡ 0 }
    {
        History {
            alloc,
            net,
            base,
            entries: Vec::new(alloc),
            index: IndexSet::new(alloc),
            freed: Vec::new(alloc),
            room: 0,
        }
    }

    /// The network by which entries are judged. It has no flaw.
    pub fn net(&self) -> &Network
        ensures net { result.now ≡ self.now.timetable.net }
        ensures timetable { IsTimetable self.now.timetable }
    {
        &self.net
    }

    /// The settings by which entries are judged. They are within their limits.
    pub fn settings(&self) -> &Settings
        ensures settings { result.now ≡ self.now.timetable.settings }
        ensures timetable { IsTimetable self.now.timetable }
    {
        &self.base.settings
    }

    /// The base timetable: the settings, and the claims that stand before any entry.
    pub fn base(&self) -> &Base
        ensures base { self.now.timetable ≡ timetable_of self.now.timetable.net result.now }
        ensures timetable { IsTimetable self.now.timetable }
    {
        &self.base
    }

    /// How many entries there are: the position of the next one.
    pub fn front(&self) -> u64
        ensures front { result ≡ length self.now.entries }
        ensures legal { IsLegal self.now.timetable self.now.entries }
    {
        self.entries.len() as u64
    }

    /// The entry at a position, None from the front on.
    pub fn entry(&self, at: u64) -> Option<&Entry>
        ensures { option_map (λ entry. entry.now) result ≡ slice_get self.now.entries at }
    {
        self.entries.get(at as usize)
    }

    /// The position of the later entry that frees the one at this position, None where none
    /// does, and from the front on.
    pub fn freed_by(&self, at: u64) -> Option<u64>
        ensures { result ≡ freed_by self.now.entries at }
    {
        self.freed.get(at as usize).copied().flatten()
    }

    /// The claims of a deed: a hold has its own, a grant the joined blocking times of
    /// its path, and a Free none. The path must break none of the rules that hold for
    /// paths of clients' own making.
    pub fn claims_of(&self, deed: &Deed) -> Result<Vec<Claim>, NoMemory>
        requires { HasStairway self.now.timetable deed.now }
        ensures { IfOk result (λ claims. claims.items ≡ claims_of self.now.timetable deed.now) }
    {
        live::claims_of(self.alloc, &self.net, &self.base, deed)
    }

    /// The first rule of its request that the path of a grant breaks, or of those for paths
    /// of clients' own making. A hold and a Free break none. Where none is broken, the claims
    /// of the deed can be worked out.
    pub fn breaks(&self, deed: &Deed) -> Option<Broken>
        requires within { IsDeedWithinLimits deed.now }
        requires on_net { IsDeedOn self.now.timetable.net deed.now }
        ensures first { result ≡ breaks self.now.timetable deed.now }
        ensures stairway { IsNone result → HasStairway self.now.timetable deed.now }
    {
        networks_without_flaws();
        the_first_broken_rule_is_told();
        match deed {
            Deed::Grant(wanted, path) => keeps(&self.net, &self.base.settings, path, wanted),
            _ => None,
        }
    }

    /// What is told of an owner's number that stands already, by the content that is sent
    /// with it; None where it is new. Of a path that is asked for the request alone
    /// counts, so the path may be any.
    pub fn told_again(&self, owner: &Name, number: u64, deed: &Deed) -> Option<Verdict>
        requires { length owner.now ≤ MAX_OWNER_BYTES }
        ensures { result ≡
            option_map (repeat_at self.now.entries deed.now)
            (place_of self.now.entries owner.now number) }
    {
        let key = entry_key(owner, number);
        let at = self.index.get_index_of(&key)?;
        let freer = self.freed[at];
        Some(told_again(&self.entries[at], deed, at as u64, freer))
    }

    /// What the history says of a new entry that is in range, by looking through all entries and
    /// their claims: the plain double of `judge_by`.
    pub fn judge(&self, entry: &Entry) -> Result<Verdict, NoMemory>
        requires { IsInRange self.now.timetable entry.now }
        ensures { IfOk result (λ verdict. verdict ≡
            verdict_on self.now.timetable self.now.entries entry.now) }
    {
        match scans::place_of(&self.entries, &entry.owner, entry.number) {
            None => self.judge_deed(entry),
            Some(at) => {
                let freer = scans::freed_by(&self.entries, at);
                Ok(told_again(&self.entries[at as usize], &entry.deed, at, freer))
            }
        }
    }

    // What an entry is told whose number is new.
    fn judge_deed(&self, entry: &Entry) -> Result<Verdict, NoMemory>
        requires { IsInRange self.now.timetable entry.now }
        ensures { IfOk result (λ verdict. verdict ≡
            verdict_on_deed self.now.timetable self.now.entries entry.now.owner entry.now.deed) }
    {
        if let Some(at) = freed_position(&entry.deed) {
            let freer = scans::freed_by(&self.entries, at);
            return told_of_free(self.alloc, &entry.owner, self.entry(at), freer);
        }
        if let Some(rule) = self.breaks(&entry.deed) {
            return Ok(Verdict::BreaksRequest(rule));
        }
        claims_are_on_the_network();
        let claims = self.claims_of(&entry.deed)?;
        let live = self.live()?;
        Ok(taken_or_fresh(first_clash(live, &claims)))
    }

    // The claims that are live, with their owners, worked out anew.
    pub(crate) fn live(&self) -> Result<Vec<(Claim, Owner)>, NoMemory>
        ensures { IfOk result (λ live.
            live.items ≡ live_claims self.now.timetable self.now.entries) }
    {
        grants_keep_their_requests();
        claims_are_on_the_network();
        live::live_claims(self.alloc, &self.net, &self.base, &self.entries)
    }

    /// What `judge` says, by the indexes of numbers and of frees, and by a book that holds
    /// the live claims: its work does not grow with the history. The claims are those of
    /// the deed, which matter only where its path breaks no rule. Memory is wanted for the
    /// name of another owner alone.
    pub fn judge_by(
        &self,
        book: &Occupations,
        entry: &Entry,
        claims: &[Claim],
    ) -> Result<Verdict, NoMemory>
        requires range { IsInRange self.now.timetable entry.now }
        requires claims { breaks self.now.timetable entry.now.deed ≡ None →
            claims.now ≡ claims_of self.now.timetable entry.now.deed }
        requires zones { self.now.timetable.net.zones ≤ length book.now }
        requires live { AreLive self.now.timetable (held book.now) self.now.entries }
        ensures { IfOk result (λ verdict. verdict ≡
            verdict_on self.now.timetable self.now.entries entry.now) }
    {
        if let Some(verdict) = self.told_again(&entry.owner, entry.number, &entry.deed) {
            return Ok(verdict);
        }
        self.judge_deed_by(book, entry, claims)
    }

    // What an entry is told whose number is new.
    fn judge_deed_by(
        &self,
        book: &Occupations,
        entry: &Entry,
        claims: &[Claim],
    ) -> Result<Verdict, NoMemory>
        requires range { IsInRange self.now.timetable entry.now }
        requires claims { breaks self.now.timetable entry.now.deed ≡ None →
            claims.now ≡ claims_of self.now.timetable entry.now.deed }
        requires zones { self.now.timetable.net.zones ≤ length book.now }
        requires live { AreLive self.now.timetable (held book.now) self.now.entries }
        ensures { IfOk result (λ verdict. verdict ≡
            verdict_on_deed self.now.timetable self.now.entries entry.now.owner entry.now.deed) }
    {
        if let Some(at) = freed_position(&entry.deed) {
            return told_of_free(self.alloc, &entry.owner, self.entry(at), self.freed_by(at));
        }
        if let Some(rule) = self.breaks(&entry.deed) {
            return Ok(Verdict::BreaksRequest(rule));
        }
        first_clashes_are_first();
        claims_are_on_the_network();
        // What the book holds is apart, and so has one first, in whatever order it stands.
        book.zones();
        Ok(taken_or_fresh(first_in_book(book, claims)))
    }

    /// Makes room for one entry more. Where there is room already it takes no memory.
    pub fn reserve(&mut self) -> Result<(), NoMemory>
        ensures ok { OnOk result (self.new ≡ record self.old { spare = max self.old.spare 1 }) }
        ensures err { OnErr result (self.new ≡ self.old) }
        ensures had { 1 ≤ self.old.spare → IsOk result }
    {
        if self.room == 0 {
            self.index.reserve(1)?;
            self.entries.reserve(1)?;
            self.freed.reserve(1)?;
            self.room = 1;
        }
        Ok(())
    }

    /// Puts an entry that is in range and fresh behind the others. There must be room for it.
    pub fn push(&mut self, entry: Entry)
        requires joins { Joins self.old.timetable self.old.entries entry }
        requires room { 1 ≤ self.old.spare }
        ensures { self.new ≡ record self.old {
          entries = self.old.entries ++ entry ∷ [];
          spare = self.old.spare - 1;
        } }
    {
        first_clashes_are_first();
        let key = entry_key(&entry.owner, entry.number);
        let indexed = self.index.insert(key);
        let Ok(_) = indexed else { unreachable!() };
        let front = self.entries.len() as u64;
        mark(&mut self.freed, freed_position(&entry.deed), Some(front));
        self.freed.push_reserved(None);
        self.entries.push_reserved(entry);
        self.room -= 1;
    }

    /// Takes the last entry out; None exactly where there is none. It takes no memory.
    pub fn pop(&mut self) -> Option<Entry>
        ensures some { IfSome result (λ last.
            self.old ≡ record self.new { entries = self.new.entries ++ last ∷ [] }) }
        ensures none { IsNone result ↔ (self.old.entries ≡ []) }
        ensures kept { IsNone result → self.new ≡ self.old }
    {
        first_clashes_are_first();
        let last = self.entries.pop()?;
        let front = self.entries.len();
        self.index.truncate(front);
        self.freed.truncate(front);
        mark(&mut self.freed, freed_position(&last.deed), None);
        Some(last)
    }
}

// Writes down who frees the entry at this position.
fn mark(freed: &mut Vec<Option<u64>>, at: Option<u64>, freer: Option<u64>)
    requires { IfSome at (λ place. place < length freed.old.items) }
    ensures items { freed.new.items ≡ marked freed.old.items at freer }
    ensures room { vec_capacity freed.new ≡ vec_capacity freed.old }
{
    if let Some(at) = at {
        freed[at as usize] = freer;
    }
}
