//! The parts of a book, and how an entry comes to them.

ghost use Rattle.std.specs.Prelude.{◌≡◌, ◌+◌, ◌<◌, ◌≤◌, ◌↔◌, ℕ, IfErr, IfOk, IsTrue, None};
ghost use Rattle.std.specs.Prelude.{length};
ghost use Rattle.rail_types.specs.Limits.{IsEntryWithinLimits};
ghost use Rattle.grant_journal.specs.Causes.{HasSettleCause};
ghost use Rattle.grant_log.specs.Legal.{IsInRange, Joins};
ghost use Rattle.grant_log.specs.Live.{claims_of as claims_of_deed};
ghost use Rattle.grant_log.specs.Verdict.{breaks};
ghost use Rattle.grant_journal.specs.Keeping.{Left};
ghost use Rattle.grant_journal.specs.Timed.{settled_of};
ghost use Rattle.path_commit.specs.Answers.{bytes_with, Commits, HasCommitCause, IsBeforeOrAfter};
ghost use Rattle.path_commit.specs.Answers.{IsRefusal, IsTold, Settles};
ghost use Rattle.path_commit.specs.Footings.{footing_of};
ghost use Rattle.path_commit.specs.Inside.{AreOne, IsBegun, IsReady, IsToldBy, ledger_of};
ghost use Rattle.path_commit.specs.Ledgers.{IsPrefixOf, settled_of as settled_in};

use crate::answers::Committed;
use crate::judging::{claims_of, judge};
use entry_codec::body_len;
use grant_journal::journal_moments::TimedJournal;
use grant_journal::journal_text::{bytes_are_counted, record};
use grant_journal::{Settled, Stage, Written};
use grant_log::copy_since::{Change, change_of, follow, reserve_change};
use grant_log::{History, live_claims_follow};
use no_memory::NoMemory;
use occupation_book::Occupations;
use outside_io::Disk;
use rail_types::{Claim, Deed, Entry, List};
use std::alloc::Global;

/// The digests of the network's file and of the base timetable's, the history, the claims that are
/// live in it, and the journal that keeps it.
#[derive(Drop)]
pub(crate) struct Parts<D: Disk> {
    pub network: [u8; 32],
    pub base: [u8; 32],
    pub history: History,
    pub claims: Occupations,
    pub journal: TimedJournal<D>,
}

/// All that an entry needs: its record, and what it changes of the claims.
#[derive(Debug, Drop)]
pub(crate) struct Ready {
    pub bytes: List<u8>,
    pub change: Change,
}

impl<D: Disk> Parts<D> {
    // All that the entry needs, or what it is told.
    pub(crate) fn prepare(
        &mut self,
        alloc: Global,
        entry: &Entry,
        searched: u64,
    ) -> Result<Ready, Committed>
        requires one { AreOne D.Disk self.old.network self.old.base self.old.history
            self.old.claims self.old.journal }
        requires range { IsInRange self.old.history.timetable entry.now }
        ensures one { AreOne D.Disk self.new.network self.new.base self.new.history
            self.new.claims self.new.journal }
        ensures same { ledger_of self.new.network self.new.base self.new.history self.new.journal
            ≡ ledger_of self.old.network self.old.base self.old.history self.old.journal }
        ensures ready { IfOk result
            (IsReady self.new.history self.new.claims self.new.journal entry.now) }
        ensures told { IfErr result
            (IsTold self.old.history.timetable self.old.history.entries entry.now searched) }
        ensures refusal { IfErr result IsRefusal }
    {
        // The claims of a hold stand in its deed, so that none are worked out.
        if let Deed::Hold(claims, _) = &entry.deed {
            return self.prepare_with(alloc, entry, claims.as_slice(), searched);
        }
        let Ok(claims) = claims_of(alloc, &self.history, entry) else {
            return Err(Committed::Memory);
        };
        self.prepare_with(alloc, entry, &claims, searched)
    }

    // The same for an entry with these claims, which matter only where its path breaks no rule.
    fn prepare_with(
        &mut self,
        alloc: Global,
        entry: &Entry,
        claims: &[Claim],
        searched: u64,
    ) -> Result<Ready, Committed>
        requires one { AreOne D.Disk self.old.network self.old.base self.old.history
            self.old.claims self.old.journal }
        requires range { IsInRange self.old.history.timetable entry.now }
        requires claims { breaks self.old.history.timetable entry.now.deed ≡ None →
            claims.now ≡ claims_of_deed self.old.history.timetable entry.now.deed }
        ensures one { AreOne D.Disk self.new.network self.new.base self.new.history
            self.new.claims self.new.journal }
        ensures same { ledger_of self.new.network self.new.base self.new.history self.new.journal
            ≡ ledger_of self.old.network self.old.base self.old.history self.old.journal }
        ensures ready { IfOk result
            (IsReady self.new.history self.new.claims self.new.journal entry.now) }
        ensures told { IfErr result
            (IsTold self.old.history.timetable self.old.history.entries entry.now searched) }
        ensures refusal { IfErr result IsRefusal }
    {
        judge(alloc, &self.history, &self.claims, entry, claims, searched)?;
        if !self.has_room(entry) {
            return Err(Committed::Full);
        }
        match self.make_room(alloc, entry, claims) {
            Ok(ready) => Ok(ready),
            Err(NoMemory) => Err(Committed::Memory),
        }
    }

    // Whether the journal's limit leaves room for the entry's record.
    fn has_room(&self, entry: &Entry) -> bool
        requires one { AreOne D.Disk self.now.network self.now.base self.now.history
            self.now.claims self.now.journal }
        requires within { IsEntryWithinLimits entry.now }
        ensures { IsTrue result ↔ (bytes_with self.now.history.entries entry.now
            ≤ self.now.history.timetable.settings.journal_bytes) }
    {
        bytes_are_counted();
        let limit = self.history.settings().journal_bytes;
        fits(self.journal.used(), body_len(entry) as u64, limit)
    }

    // Takes all the memory that a fresh entry needs.
    fn make_room(
        &mut self,
        alloc: Global,
        entry: &Entry,
        claims: &[Claim],
    ) -> Result<Ready, NoMemory>
        requires one { AreOne D.Disk self.old.network self.old.base self.old.history
            self.old.claims self.old.journal }
        requires joins { Joins self.old.history.timetable self.old.history.entries entry.now }
        requires claims { claims.now ≡
            claims_of_deed self.old.history.timetable entry.now.deed }
        requires room { bytes_with self.old.history.entries entry.now
            ≤ self.old.history.timetable.settings.journal_bytes }
        ensures one { AreOne D.Disk self.new.network self.new.base self.new.history
            self.new.claims self.new.journal }
        ensures same { ledger_of self.new.network self.new.base self.new.history self.new.journal
            ≡ ledger_of self.old.network self.old.base self.old.history self.old.journal }
        ensures ready { IfOk result
            (IsReady self.new.history self.new.claims self.new.journal entry.now) }
    {
        // The limit of a journal is below what four bytes can count.
        self.history.settings();
        let bytes = record(alloc, entry)?;
        let change = change_of(alloc, &self.history, entry, claims)?;
        reserve_change(alloc, &mut self.claims, &self.history, entry, &change)?;
        self.history.reserve()?;
        self.journal.reserve()?;
        Ok(Ready {
            bytes: List::from_vec(bytes),
            change,
        })
    }

    // Writes the entry; once it is begun, the history and the claims follow. It takes no memory.
    pub(crate) fn enter(&mut self, entry: Entry, ready: Ready) -> Committed
        requires one { AreOne D.Disk self.old.network self.old.base self.old.history
            self.old.claims self.old.journal }
        requires ready { IsReady self.old.history self.old.claims self.old.journal entry ready }
        requires idle { settled_of self.old.journal ≡ length self.old.history.entries }
        ensures one { AreOne D.Disk self.new.network self.new.base self.new.history
            self.new.claims self.new.journal }
        ensures footing { footing_of
            (ledger_of self.new.network self.new.base self.new.history self.new.journal)
            ≡ footing_of
            (ledger_of self.old.network self.old.base self.old.history self.old.journal) }
        ensures commits { Commits D.Disk
            (ledger_of self.old.network self.old.base self.old.history self.old.journal)
            (ledger_of self.new.network self.new.base self.new.history self.new.journal)
            entry result }
        ensures left { Left D.Disk self.old.journal.journal.disk self.new.journal.journal.disk
            (IsBeforeOrAfter
            (ledger_of self.old.network self.old.base self.old.history self.old.journal)
            (ledger_of self.new.network self.new.base self.new.history self.new.journal)) }
        ensures told { (searched : ℕ) →
            IsTold self.old.history.timetable self.old.history.entries entry searched result }
        ensures cause { HasCommitCause (D.faults self.old.journal.journal.disk)
            (D.faults self.new.journal.journal.disk) result }
        ensures later { D.faults self.old.journal.journal.disk
            ≤ D.faults self.new.journal.journal.disk }
    {
        live_claims_follow();
        bytes_are_counted();
        let at = self.history.front();
        let written = self.journal.append(ready.bytes.as_slice());
        if let Written::Fault {
            stage: Stage::Record,
        } = written
        {
            return Committed::DiskFault;
        }
        follow(&mut self.claims, &self.history, &entry, &ready.change);
        self.history.push(entry);
        told(written, at)
    }

    // Settles the entry that is pending, where one is.
    pub(crate) fn settle(&mut self) -> Settled
        requires one { AreOne D.Disk self.old.network self.old.base self.old.history
            self.old.claims self.old.journal }
        ensures one { AreOne D.Disk self.new.network self.new.base self.new.history
            self.new.claims self.new.journal }
        ensures footing { footing_of
            (ledger_of self.new.network self.new.base self.new.history self.new.journal)
            ≡ footing_of
            (ledger_of self.old.network self.old.base self.old.history self.old.journal) }
        ensures entries { self.new.history.entries ≡ self.old.history.entries }
        ensures settles { Settles D.Disk
            (ledger_of self.old.network self.old.base self.old.history self.old.journal)
            (ledger_of self.new.network self.new.base self.new.history self.new.journal) result }
        ensures left { Left D.Disk self.old.journal.journal.disk self.new.journal.journal.disk
            (IsPrefixOf
            (ledger_of self.old.network self.old.base self.old.history self.old.journal)
            (settled_of self.old.journal)) }
        ensures cause { HasSettleCause (D.faults self.old.journal.journal.disk)
            (D.faults self.new.journal.journal.disk) result }
        ensures later { D.faults self.old.journal.journal.disk
            ≤ D.faults self.new.journal.journal.disk }
    {
        self.journal.settle()
    }
}

// Whether so many bytes leave room, within a limit, for a record with a body of so many.
fn fits(used: u64, body: u64, limit: u64) -> bool
    ensures { IsTrue result ↔ (used + (body + 5) ≤ limit) }
{
    used <= limit && 5 <= limit - used && body <= limit - used - 5
}

// What an entry at this position is told that was begun.
fn told(written: Written, at: u64) -> Committed
    requires { IsBegun written }
    ensures { IsToldBy written at result }
{
    match written {
        Written::Done => Committed::Done(at),
        _ => Committed::Unsettled(at),
    }
}
