ghost use Rattle.std.specs.Prelude.{◌≡◌, ◌+◌, ◌-◌, ◌<◌, ◌≤◌, ◌^◌, ◌∷◌, ◌++◌, ◌↔◌, [], ℕ, List, All};
ghost use Rattle.std.specs.Prelude.{length, IsOk, IsTrue, OnErr, OnOk, slice_get};

use crate::{Journal, Settled, Written};
use no_memory::NoMemory;
use outside_io::Disk;
use std::alloc::Global;
use std::marker::Model;

/// A journal, and the moments at which its entries were settled.
#[derive(Drop)]
pub struct TimedJournal<D: Disk> {
    journal: Journal<D>,
    made: u64,
    // How many entries stood in it when it was made. They count as settled then.
    found: u64,
    // When each later entry was settled.
    moments: Vec<u64>,
}

impl<D: Disk> Model for TimedJournal<D> {
    ghost use Rattle.std.specs.Prelude.{◌-◌, vec_capacity, vec_len};
    ghost use Rattle.grant_journal.specs.Timed.{Timed};

    ghost Value = { Timed D };

    ghost view = { λ j. record {
      journal = j.journal;
      made = j.made;
      found = j.found;
      moments = j.moments.items;
      spare = vec_capacity j.moments - vec_len j.moments;
    } };
}

impl<D: Disk> TimedJournal<D> {
    ghost use Rattle.grant_journal.specs.Causes.{HasWriteCause, HasSettleCause};
    ghost use Rattle.grant_journal.specs.Histories.{counted, front_of, ReadsAs};
    ghost use Rattle.grant_journal.specs.Answers.{Enters, Settles};
    ghost use Rattle.grant_journal.specs.Keeping.{Keeps};

    /// The journal with nothing pending, in which so many entries stand.
    pub fn of(alloc: Global, journal: Journal<D>, found: u64) -> TimedJournal<D>
        requires idle { journal.next ≡ journal.gate }
        ensures journal { result.journal ≡ journal }
        ensures made { result.made ≡ D.clock journal.disk }
        ensures found { result.found ≡ found }
        ensures moments { result.moments ≡ [] }
        ensures keeps { (header : List ℕ) (bodies : List (List ℕ)) → found ≡ length bodies
            → journal.gate ≡ length (front_of header bodies)
            → All (λ body. length body < 2 ^ 32) bodies
            → ((image : List ℕ) → D.images journal.disk image → ReadsAs header bodies image)
            → Keeps D.Disk result header bodies }
    {
        let made = journal.moment();
        TimedJournal {
            journal,
            made,
            found,
            moments: Vec::new(alloc),
        }
    }

    /// Makes room for the moment of one entry more.
    pub fn reserve(&mut self) -> Result<(), NoMemory>
        ensures same { self.new ≡ record self.old { spare = self.new.spare } }
        ensures room { OnOk result (1 ≤ self.new.spare) }
        ensures had { 1 ≤ self.old.spare → IsOk result }
        ensures kept { self.old.spare ≤ self.new.spare }
    {
        self.moments.reserve(1)?;
        Ok(())
    }

    /// Adds an entry by the bytes of its record. There must be room for its moment.
    pub fn append(&mut self, bytes: &[u8]) -> Written
        requires idle { self.old.journal.next ≡ self.old.journal.gate }
        requires room { 1 ≤ self.old.spare }
        requires end { self.old.journal.next + 1 + length bytes.now < 2 ^ 64 }
        requires some { 0 < length bytes.now }
        ensures made { self.new.made ≡ self.old.made }
        ensures found { self.new.found ≡ self.old.found }
        ensures room { self.new.spare + length self.new.moments
            ≡ self.old.spare + length self.old.moments }
        ensures enters { (header : List ℕ) (bodies : List (List ℕ)) (body : List ℕ)
            → bytes.now ≡ counted body ++ 0 ∷ [] → length body < 2 ^ 32
            → Keeps D.Disk self.old header bodies
            → Enters D.Disk self.old self.new header bodies body result }
        ensures cause { HasWriteCause (D.faults self.old.journal.disk)
            (D.faults self.new.journal.disk) result }
        ensures later { D.faults self.old.journal.disk ≤ D.faults self.new.journal.disk }
    {
        let written = self.journal.append(bytes);
        if let Written::Done = written {
            self.moments.push_reserved(self.journal.moment());
        }
        written
    }

    /// Settles the entry that is pending, where one is. There must be room for its moment.
    pub fn settle(&mut self) -> Settled
        requires room { self.old.journal.gate < self.old.journal.next → 1 ≤ self.old.spare }
        ensures made { self.new.made ≡ self.old.made }
        ensures found { self.new.found ≡ self.old.found }
        ensures room { self.new.spare + length self.new.moments
            ≡ self.old.spare + length self.old.moments }
        ensures settles { (header : List ℕ) (bodies : List (List ℕ))
            → Keeps D.Disk self.old header bodies
            → Settles D.Disk self.old self.new header bodies result }
        ensures cause { HasSettleCause (D.faults self.old.journal.disk)
            (D.faults self.new.journal.disk) result }
        ensures later { D.faults self.old.journal.disk ≤ D.faults self.new.journal.disk }
    {
        if !self.journal.pending() {
            return Settled::Done;
        }
        let settled = self.journal.settle();
        if let Settled::Done = settled {
            self.moments.push_reserved(self.journal.moment());
        }
        settled
    }

    /// How many bytes of the file count, with the entry that is pending.
    pub fn used(&self) -> u64
        ensures used { result ≡ self.now.journal.next + 1 }
        ensures front { (header : List ℕ) (bodies : List (List ℕ))
            → Keeps D.Disk self.now header bodies → result ≡ length (front_of header bodies) + 1 }
    {
        self.journal.used()
    }

    /// Whether the last entry is pending.
    pub fn pending(&self) -> bool
        ensures { IsTrue result ↔ (self.now.journal.gate < self.now.journal.next) }
    {
        self.journal.pending()
    }

    /// What the disk's clock says.
    pub fn moment(&self) -> u64
        ensures { result ≡ D.clock self.now.journal.disk }
    {
        self.journal.moment()
    }

    /// What the clock said when this was made.
    pub fn made(&self) -> u64
        ensures { result ≡ self.now.made }
    {
        self.made
    }

    /// How many entries stood in it then.
    pub fn found(&self) -> u64
        ensures { result ≡ self.now.found }
    {
        self.found
    }

    /// The moments at which later entries were settled.
    pub fn moments(&self) -> &[u64]
        ensures { result.now ≡ self.now.moments }
    {
        &self.moments
    }

    /// The disk.
    pub fn disk(&self) -> &D
        ensures { result.now ≡ self.now.journal.disk }
    {
        self.journal.disk()
    }

    /// Hands the disk back.
    pub fn close(self) -> D
        ensures { result ≡ self.journal.disk }
    {
        let TimedJournal {
            journal,
            made: _,
            found: _,
            moments: _,
        } = self;
        journal.close()
    }
}
