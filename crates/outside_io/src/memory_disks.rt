ghost use Rattle.std.specs.Prelude.{◌↔◌, ◌⊎◌, Contains, IsErr, IsTrue, OnErr, OnOk, is_some};
ghost use Rattle.std.specs.Prelude.{option_map, ◌≡◌, ◌∷◌, ◌+◌, ◌-◌, ◌%◌, ◌<◌, ◌≤◌, ◌^◌, [], ℕ};
ghost use Rattle.std.specs.Prelude.{List, Some, length, IfOk, IfSome, IsNone, take, drop};
ghost use Rattle.std.specs.Io.{ReadsAtMost};
ghost use Rattle.outside_io.specs.Disks.{Follows, Looks, Passes, Torn, TornWhereTold, write_over};
ghost use Rattle.outside_io.specs.Faults.{HasCause, next_count};
ghost use Rattle.outside_io.specs.StoredDisks.{contents_after, contents_synced, failed_at};
ghost use Rattle.outside_io.specs.StoredDisks.{room_used, synced, wrote, IsImageAfter};
ghost use Rattle.outside_io.specs.StoredDisks.{IsImageSince};

use crate::crashes::replay;
use crate::logged::Logged;
use crate::overwrites::overwrite;
use crate::{Disk, Failed};
use no_memory::NoMemory;
use std::alloc::Global;
use std::marker::Model;

/// A disk in memory, which tells its bytes, and whose calls fail where it is told to.
#[derive(Debug, Drop)]
pub struct MemDisk {
    first: Vec<u8>,
    bytes: Vec<u8>,
    log: Vec<Logged>,
    pieces: Vec<u8>,
    given: usize,
    room: usize,
    calls: u64,
    fails: Vec<u64>,
    syncs: u64,
    failing_syncs: Vec<u64>,
    faults: u64,
}

impl Model for MemDisk {
    ghost use Rattle.std.specs.Prelude.{◌≡◌, ◌≤◌, ◌+◌, [], length, vec_len, vec_capacity};
    ghost use Rattle.outside_io.specs.StoredDisks.{DiskInMemory, contents_after};

    ghost Value = { DiskInMemory };

    ghost use Rattle.outside_io.specs.Logged.{bytes_in, changes_behind};

    ghost view = { λ d. record {
      first = d.first.items;
      changes = changes_behind [] d.log.items d.pieces.items;
      given = d.given;
      room = d.room;
      calls = d.calls;
      fails = d.fails.items;
      syncs = d.syncs;
      failing_syncs = d.failing_syncs.items;
      faults = d.faults;
    } };

    ghost invariant = { λ d. record {
      contents : d.bytes.items
          ≡ contents_after d.first.items (changes_behind [] d.log.items d.pieces.items);
      whole : bytes_in d.log.items ≡ length d.pieces.items;
      bytes_room : vec_len d.bytes + d.room ≤ vec_capacity d.bytes;
      log_room : vec_len d.log + d.room ≤ vec_capacity d.log;
      pieces_room : vec_len d.pieces + d.room ≤ vec_capacity d.pieces;
    } };
}

// The room that a write leaves, None where there is not enough.
fn room_behind(room: usize, len: usize, at: u64, count: usize) -> Option<usize>
    ensures enough { IfSome result (λ left. left + (at - len) + count + 1 ≡ room) }
    ensures scarce { IsNone result → room < (at - len) + count + 1 }
{
    let gap = at.saturating_sub(len as u64);
    if gap > room as u64 {
        return None;
    }
    let behind_gap = room - gap as usize;
    let behind_piece = behind_gap.checked_sub(count)?;
    behind_piece.checked_sub(1)
}

impl MemDisk {
    /// A disk with these bytes, and room for so much more: each write or sync uses 1, and a write
    /// the bytes that it writes, and those between the old end and its place. `fails` lists the
    /// calls that fail, counted from 0. The memory for all the room is taken here.
    pub fn new(
        alloc: Global,
        bytes: Vec<u8>,
        room: usize,
        fails: Vec<u64>,
    ) -> Result<MemDisk, NoMemory>
        ensures { IfOk result (λ disk. disk ≡ record {
          first = bytes.items;
          changes = [];
          given = room;
          room = room;
          calls = 0;
          fails = fails.items;
          syncs = 0;
          failing_syncs = [];
          faults = 0;
        }) }
    {
        let none = Vec::new(alloc);
        MemDisk::failing(alloc, bytes, room, fails, none)
    }

    /// A disk like that of `new`, of which the listed syncs fail, counted from 0, and any
    /// other call only for want of room.
    pub fn failing_syncs(
        alloc: Global,
        bytes: Vec<u8>,
        room: usize,
        syncs: Vec<u64>,
    ) -> Result<MemDisk, NoMemory>
        ensures { IfOk result (λ disk. disk ≡ record {
          first = bytes.items;
          changes = [];
          given = room;
          room = room;
          calls = 0;
          fails = [];
          syncs = 0;
          failing_syncs = syncs.items;
          faults = 0;
        }) }
    {
        let none = Vec::new(alloc);
        MemDisk::failing(alloc, bytes, room, none, syncs)
    }

    fn failing(
        alloc: Global,
        bytes: Vec<u8>,
        room: usize,
        fails: Vec<u64>,
        failing_syncs: Vec<u64>,
    ) -> Result<MemDisk, NoMemory>
        ensures { IfOk result (λ disk. disk ≡ record {
          first = bytes.items;
          changes = [];
          given = room;
          room = room;
          calls = 0;
          fails = fails.items;
          syncs = 0;
          failing_syncs = failing_syncs.items;
          faults = 0;
        }) }
    {
        let mut bytes = bytes;
        let first = Vec::from_slice(alloc, bytes.as_slice())?;
        bytes.reserve(room)?;
        Ok(MemDisk {
            first,
            bytes,
            log: Vec::with_capacity(alloc, room)?,
            pieces: Vec::with_capacity(alloc, room)?,
            given: room,
            room,
            calls: 0,
            fails,
            syncs: 0,
            failing_syncs,
            faults: 0,
        })
    }

    /// The bytes that it holds.
    pub fn bytes(&self) -> &[u8]
        ensures { result.now ≡ contents_after self.now.first self.now.changes }
    {
        &self.bytes
    }

    /// A disk with what a crash now may leave of this one, with as much room as this one was
    /// given, and no failing call. The choice counts modulo 8: 0 leaves what was synced last, 1
    /// what is there, 2 the front of each piece that was not synced, 3 its back, 4 a foreign
    /// byte in it, 5 what of it lies before the end that was synced last; 6 leaves every other
    /// piece, from the first on, and 7 fronts and whole pieces in turn. From 2 on the pieces of
    /// failed writes are among them.
    pub fn crash(&self, alloc: Global, choice: u64) -> Result<MemDisk, NoMemory>
        ensures image { IfOk result
            (λ left. IsImageAfter self.now.first self.now.changes left.first) }
        ensures last_sync { choice % 8 ≡ 0
            → IfOk result (λ left. left.first ≡ contents_synced self.now.first self.now.changes) }
        ensures as_read { choice % 8 ≡ 1
            → IfOk result (λ left. left.first ≡ contents_after self.now.first self.now.changes) }
        ensures fresh { IfOk result (λ left. left ≡ record {
          first = left.first;
          changes = [];
          given = self.now.given;
          room = self.now.given;
          calls = 0;
          fails = [];
          syncs = 0;
          failing_syncs = [];
          faults = 0;
        }) }
    {
        let image = replay(alloc, &self.first, &self.log, &self.pieces, choice)?;
        MemDisk::new(alloc, image, self.given, Vec::new(alloc))
    }

    // Counts a call, and answers whether it is listed to fail.
    fn next_call_fails(&mut self) -> bool
        ensures counted { self.new ≡ record self.old { calls = next_count self.old.calls } }
        ensures listed { IsTrue result ↔ Contains self.old.fails self.old.calls }
    {
        let is_listed = self.fails.contains(&self.calls);
        self.calls = self.calls.saturating_add(1);
        is_listed
    }

    // Counts a sync, and answers whether it is listed to fail as one.
    fn next_sync_fails(&mut self) -> bool
        ensures counted { self.new ≡ record self.old { syncs = next_count self.old.syncs } }
        ensures listed { IsTrue result ↔ Contains self.old.failing_syncs self.old.syncs }
    {
        let is_listed = self.failing_syncs.contains(&self.syncs);
        self.syncs = self.syncs.saturating_add(1);
        is_listed
    }

    // Uses up room for a sync that fails.
    fn forgo(&mut self)
        requires { 0 < self.old.room }
        ensures { self.new ≡ record self.old { room = self.old.room - 1 } }
    {
        self.room -= 1;
    }

    fn fail(&mut self)
        ensures counted { self.new ≡ record self.old { faults = next_count self.old.faults } }
        ensures later { self.old.faults ≤ self.new.faults }
    {
        self.faults = self.faults.saturating_add(1);
    }

    // Uses up room for a write that fails.
    fn lose(&mut self, at: u64, piece: &[u8], room: usize)
        requires { room + length piece.now < self.old.room }
        ensures { self.new ≡ record self.old {
          changes = failed_at at (length piece.now) ∷ self.old.changes;
          room = room;
        } }
    {
        let Ok(()) = self.pieces.extend_from_slice(piece) else {
            unreachable!()
        };
        self.log.push_reserved(Logged::FailedAt {
            at,
            count: piece.len(),
        });
        self.room = room;
    }

    fn keep(&mut self, at: u64, piece: &[u8], room: usize)
        requires { room + (at - length (contents_after self.old.first self.old.changes))
            + length piece.now + 1 ≡ self.old.room }
        ensures { self.new ≡ record self.old {
          changes = wrote at piece.now ∷ self.old.changes;
          room = room;
        } }
    {
        overwrite(&mut self.bytes, at as usize, piece);
        let Ok(()) = self.pieces.extend_from_slice(piece) else {
            unreachable!()
        };
        self.log.push_reserved(Logged::Wrote {
            at,
            count: piece.len(),
        });
        self.room = room;
    }

    fn settle(&mut self)
        requires { 0 < self.old.room }
        ensures { self.new ≡ record self.old {
          changes = synced ∷ self.old.changes;
          room = self.old.room - 1;
        } }
    {
        self.log.push_reserved(Logged::Synced);
        self.room -= 1;
    }
}

impl Disk for MemDisk {
    ghost use Rattle.std.specs.Prelude.{Some};
    ghost use Rattle.outside_io.specs.DiskLaws.{since-now, since-older, since-only, told_image};
    ghost use Rattle.outside_io.specs.StoredDisks.{IsImageAfter, IsImageSince, contents_after};

    ghost contents = { λ d. Some (contents_after d.first d.changes) };

    ghost images = { λ d image. IsImageAfter d.first d.changes image };

    ghost clock = { λ d. length d.changes };

    ghost since = { λ d moment image. IsImageSince d.first d.changes moment image };

    ghost faults = { λ d. d.faults };

    ghost contents_are_image = { λ d bytes told. told_image d.first d.changes bytes told };

    ghost counts_now = { λ d moment image le now. since-now d.first d.changes moment image le now };

    ghost only_now = { λ d image since. since-only d.first d.changes image since };

    ghost since_earlier = { λ d earlier moment image le since.
        since-older d.first d.changes earlier moment image le since };

    fn len(&mut self) -> Result<u64, Failed>
        ensures length { IfOk result (λ count. IfSome (Some
            (contents_after self.old.first self.old.changes)) (λ bytes. count ≡ length bytes)) }
        ensures contents { Some (contents_after self.new.first self.new.changes)
            ≡ Some (contents_after self.old.first self.old.changes) }
        ensures time { Looks (length self.old.changes) (length self.new.changes)
            (IsImageSince self.old.first self.old.changes)
            (IsImageSince self.new.first self.new.changes)
            (IsImageAfter self.old.first self.old.changes)
            (IsImageAfter self.new.first self.new.changes) }
        ensures cause { HasCause self.old.faults self.new.faults result }
        ensures exact { IsErr result ↔ Contains self.old.fails self.old.calls }
        ensures done { OnOk result
            (self.new ≡ record self.old { calls = next_count self.old.calls }) }
        ensures refused { OnErr result (self.new ≡ record self.old {
          calls = next_count self.old.calls;
          faults = next_count self.old.faults;
        }) }
    {
        if self.next_call_fails() {
            self.fail();
            return Err(Failed);
        }
        Ok(self.bytes.len() as u64)
    }

    fn read(&mut self, at: u64, into: &mut [u8]) -> Result<usize, Failed>
        ensures bound { ReadsAtMost result into.new }
        ensures bytes { IfOk result
            (λ count. IfSome (Some (contents_after self.old.first self.old.changes))
            (λ bytes. take count into.new ≡ take (length into.old) (drop at bytes))) }
        ensures contents { Some (contents_after self.new.first self.new.changes)
            ≡ Some (contents_after self.old.first self.old.changes) }
        ensures time { Looks (length self.old.changes) (length self.new.changes)
            (IsImageSince self.old.first self.old.changes)
            (IsImageSince self.new.first self.new.changes)
            (IsImageAfter self.old.first self.old.changes)
            (IsImageAfter self.new.first self.new.changes) }
        ensures cause { HasCause self.old.faults self.new.faults result }
        ensures exact { IsErr result ↔ Contains self.old.fails self.old.calls }
        ensures done { OnOk result
            (self.new ≡ record self.old { calls = next_count self.old.calls }) }
        ensures refused { OnErr result (self.new ≡ record self.old {
          calls = next_count self.old.calls;
          faults = next_count self.old.faults;
        }) }
    {
        if self.next_call_fails() {
            self.fail();
            return Err(Failed);
        }
        if at >= self.bytes.len() as u64 {
            return Ok(0);
        }
        let (_, rest) = self.bytes.as_slice().split_at(at as usize);
        let count = rest.len().min(into.len());
        into[..count].copy_from_slice(&rest[..count]);
        Ok(count)
    }

    fn write_at(&mut self, at: u64, piece: &[u8]) -> Result<(), Failed>
        ensures written { OnOk result
            (Some (contents_after self.new.first self.new.changes) ≡ option_map
            (write_over at piece.now) (Some (contents_after self.old.first self.old.changes))) }
        ensures tells { is_some (Some (contents_after self.new.first self.new.changes))
            ≡ is_some (Some (contents_after self.old.first self.old.changes)) }
        ensures failed { OnErr result (TornWhereTold at (length piece.now)
            (Some (contents_after self.old.first self.old.changes))
            (Some (contents_after self.new.first self.new.changes))) }
        ensures crash { Follows (Torn at (length piece.now))
            (IsImageAfter self.old.first self.old.changes)
            (IsImageAfter self.new.first self.new.changes) }
        ensures time { Passes (length self.old.changes) (length self.new.changes)
            (IsImageSince self.old.first self.old.changes)
            (IsImageSince self.new.first self.new.changes)
            (IsImageAfter self.old.first self.old.changes)
            (IsImageAfter self.new.first self.new.changes) }
        ensures cause { HasCause self.old.faults self.new.faults result }
        ensures exact { IsErr result ↔ (Contains self.old.fails self.old.calls
            ⊎ (self.old.room < room_used self.old at (length piece.now))) }
        ensures done { OnOk result (self.new ≡ record self.old {
          changes = wrote at piece.now ∷ self.old.changes;
          room = self.old.room - room_used self.old at (length piece.now);
          calls = next_count self.old.calls;
        }) }
        ensures listed { OnErr result
            (room_used self.old at (length piece.now) ≤ self.old.room → self.new ≡ record self.old {
              changes = failed_at at (length piece.now) ∷ self.old.changes;
              room = self.old.room - room_used self.old at (length piece.now);
              calls = next_count self.old.calls;
              faults = next_count self.old.faults;
            }) }
        ensures no_room { OnErr result
            (self.old.room < room_used self.old at (length piece.now) → self.new ≡ record self.old {
              calls = next_count self.old.calls;
              faults = next_count self.old.faults;
            }) }
    {
        let is_listed = self.next_call_fails();
        let Some(room) = room_behind(self.room, self.bytes.len(), at, piece.len()) else {
            self.fail();
            return Err(Failed);
        };
        if is_listed {
            self.lose(at, piece, room);
            self.fail();
            return Err(Failed);
        }
        self.keep(at, piece, room);
        Ok(())
    }

    fn sync(&mut self) -> Result<(), Failed>
        ensures durable { OnOk result
            ((image : List ℕ) → IsImageAfter self.new.first self.new.changes image
            → Some (contents_after self.old.first self.old.changes) ≡ Some image) }
        ensures contents { Some (contents_after self.new.first self.new.changes)
            ≡ Some (contents_after self.old.first self.old.changes) }
        ensures crash { (image : List ℕ) → IsImageAfter self.new.first self.new.changes image
            → IsImageAfter self.old.first self.old.changes image }
        ensures time { Passes (length self.old.changes) (length self.new.changes)
            (IsImageSince self.old.first self.old.changes)
            (IsImageSince self.new.first self.new.changes)
            (IsImageAfter self.old.first self.old.changes)
            (IsImageAfter self.new.first self.new.changes) }
        ensures cause { HasCause self.old.faults self.new.faults result }
        ensures exact { IsErr result ↔ ((Contains self.old.fails self.old.calls
            ⊎ Contains self.old.failing_syncs self.old.syncs) ⊎ (self.old.room ≡ 0)) }
        ensures done { OnOk result (self.new ≡ record self.old {
          changes = synced ∷ self.old.changes;
          room = self.old.room - 1;
          calls = next_count self.old.calls;
          syncs = next_count self.old.syncs;
        }) }
        ensures refused { OnErr result (self.new ≡ record self.old {
          room = self.old.room - 1;
          calls = next_count self.old.calls;
          syncs = next_count self.old.syncs;
          faults = next_count self.old.faults;
        }) }
    {
        let call_fails = self.next_call_fails();
        let sync_fails = self.next_sync_fails();
        if self.room == 0 {
            self.fail();
            return Err(Failed);
        }
        if call_fails || sync_fails {
            self.forgo();
            self.fail();
            return Err(Failed);
        }
        self.settle();
        Ok(())
    }

    fn moment(&self) -> u64 {
        self.log.len() as u64
    }
}
