//! A disk that fails from some call on.

ghost use Rattle.std.specs.Prelude.{◌≡◌, ◌≤◌, ◌<◌, ◌+◌, ◌-◌, ◌^◌, ◌↔◌, ℕ, List, Some, min, length};
ghost use Rattle.std.specs.Prelude.{take, drop, is_some, option_map, IfOk, IfSome, OnErr, OnOk};
ghost use Rattle.std.specs.Prelude.{IsErr, IsTrue};
ghost use Rattle.std.specs.Io.{ReadsAtMost};
ghost use Rattle.outside_io.specs.Disks.{Follows, Looks, Passes, Torn, TornWhereTold, write_over};
ghost use Rattle.outside_io.specs.Faults.{HasCause, next_count};

use crate::{Disk, Failed};

/// A disk behind a fuse: so many calls reach it, and each call after them fails and does not reach
/// it. Its moment is that of the disk.
#[derive(Debug, Drop)]
pub struct Fuse<D: Disk> {
    disk: D,
    calls: u64,
    faults: u64,
}

impl<D: Disk> Fuse<D> {
    /// Lets so many calls through.
    pub fn new(disk: D, calls: u64) -> Fuse<D>
        ensures disk { result.disk ≡ disk }
        ensures calls { result.calls ≡ calls }
        ensures faults { result.faults ≡ 0 }
    {
        Fuse {
            disk,
            calls,
            faults: 0,
        }
    }

    /// The disk behind it.
    pub fn into_inner(self) -> D
        ensures { result ≡ self.disk }
    {
        let Fuse {
            disk,
            calls: _,
            faults: _,
        } = self;
        disk
    }

    // Uses up a call, and answers whether none was left.
    fn is_blown(&mut self) -> bool
        ensures disk { self.new.disk ≡ self.old.disk }
        ensures faults { self.new.faults ≡ self.old.faults }
        ensures blown { IsTrue result ↔ (self.old.calls ≡ 0) }
        ensures calls { self.new.calls ≡ self.old.calls - 1 }
    {
        if self.calls == 0 {
            return true;
        }
        self.calls -= 1;
        false
    }

    fn fail(&mut self) -> Failed
        ensures disk { self.new.disk ≡ self.old.disk }
        ensures calls { self.new.calls ≡ self.old.calls }
        ensures faults { self.new.faults ≡ next_count self.old.faults }
        ensures later { self.old.faults ≤ self.new.faults }
    {
        self.faults = self.faults.saturating_add(1);
        Failed
    }
}

impl<D: Disk> Disk for Fuse<D> {
    ghost contents = { λ f. D.contents f.disk };

    ghost images = { λ f. D.images f.disk };

    ghost clock = { λ f. D.clock f.disk };

    ghost since = { λ f. D.since f.disk };

    ghost faults = { λ f. min (D.faults f.disk + f.faults) (2 ^ 64 - 1) };

    ghost contents_are_image = { λ f bytes told. D.contents_are_image f.disk bytes told };

    ghost counts_now = { λ f moment image le now. D.counts_now f.disk moment image le now };

    ghost only_now = { λ f image since. D.only_now f.disk image since };

    ghost since_earlier = { λ f earlier moment image le since.
        D.since_earlier f.disk earlier moment image le since };

    fn len(&mut self) -> Result<u64, Failed>
        ensures length { IfOk result
            (λ count. IfSome (D.contents self.old.disk) (λ bytes. count ≡ length bytes)) }
        ensures contents { D.contents self.new.disk ≡ D.contents self.old.disk }
        ensures time { Looks (D.clock self.old.disk) (D.clock self.new.disk) (D.since self.old.disk)
            (D.since self.new.disk) (D.images self.old.disk) (D.images self.new.disk) }
        ensures cause { HasCause (min (D.faults self.old.disk + self.old.faults) (2 ^ 64 - 1))
            (min (D.faults self.new.disk + self.new.faults) (2 ^ 64 - 1)) result }
        ensures used { self.new.calls ≡ self.old.calls - 1 }
        ensures blown { self.old.calls ≡ 0 → IsErr result }
        ensures unreached { self.old.calls ≡ 0 → self.new.disk ≡ self.old.disk }
        ensures reached { 1 ≤ self.old.calls → self.new.faults ≡ self.old.faults }
    {
        if self.is_blown() {
            return Err(self.fail());
        }
        self.disk.len()
    }

    fn read(&mut self, at: u64, into: &mut [u8]) -> Result<usize, Failed>
        ensures bound { ReadsAtMost result into.new }
        ensures bytes { IfOk result (λ count. IfSome (D.contents self.old.disk)
            (λ bytes. take count into.new ≡ take (length into.old) (drop at bytes))) }
        ensures contents { D.contents self.new.disk ≡ D.contents self.old.disk }
        ensures time { Looks (D.clock self.old.disk) (D.clock self.new.disk) (D.since self.old.disk)
            (D.since self.new.disk) (D.images self.old.disk) (D.images self.new.disk) }
        ensures cause { HasCause (min (D.faults self.old.disk + self.old.faults) (2 ^ 64 - 1))
            (min (D.faults self.new.disk + self.new.faults) (2 ^ 64 - 1)) result }
        ensures used { self.new.calls ≡ self.old.calls - 1 }
        ensures blown { self.old.calls ≡ 0 → IsErr result }
        ensures unreached { self.old.calls ≡ 0 → self.new.disk ≡ self.old.disk }
        ensures reached { 1 ≤ self.old.calls → self.new.faults ≡ self.old.faults }
    {
        if self.is_blown() {
            return Err(self.fail());
        }
        self.disk.read(at, into)
    }

    fn write_at(&mut self, at: u64, piece: &[u8]) -> Result<(), Failed>
        ensures written { OnOk result (D.contents self.new.disk
            ≡ option_map (write_over at piece.now) (D.contents self.old.disk)) }
        ensures tells { is_some (D.contents self.new.disk) ≡ is_some (D.contents self.old.disk) }
        ensures failed { OnErr result (TornWhereTold at (length piece.now)
            (D.contents self.old.disk) (D.contents self.new.disk)) }
        ensures crash { Follows (Torn at (length piece.now)) (D.images self.old.disk)
            (D.images self.new.disk) }
        ensures time { Passes (D.clock self.old.disk) (D.clock self.new.disk)
            (D.since self.old.disk) (D.since self.new.disk) (D.images self.old.disk)
            (D.images self.new.disk) }
        ensures cause { HasCause (min (D.faults self.old.disk + self.old.faults) (2 ^ 64 - 1))
            (min (D.faults self.new.disk + self.new.faults) (2 ^ 64 - 1)) result }
        ensures used { self.new.calls ≡ self.old.calls - 1 }
        ensures blown { self.old.calls ≡ 0 → IsErr result }
        ensures unreached { self.old.calls ≡ 0 → self.new.disk ≡ self.old.disk }
        ensures reached { 1 ≤ self.old.calls → self.new.faults ≡ self.old.faults }
    {
        if self.is_blown() {
            return Err(self.fail());
        }
        self.disk.write_at(at, piece)
    }

    fn sync(&mut self) -> Result<(), Failed>
        ensures durable { OnOk result ((image : List ℕ) → D.images self.new.disk image
            → D.contents self.old.disk ≡ Some image) }
        ensures contents { D.contents self.new.disk ≡ D.contents self.old.disk }
        ensures crash { (image : List ℕ) → D.images self.new.disk image
            → D.images self.old.disk image }
        ensures time { Passes (D.clock self.old.disk) (D.clock self.new.disk)
            (D.since self.old.disk) (D.since self.new.disk) (D.images self.old.disk)
            (D.images self.new.disk) }
        ensures cause { HasCause (min (D.faults self.old.disk + self.old.faults) (2 ^ 64 - 1))
            (min (D.faults self.new.disk + self.new.faults) (2 ^ 64 - 1)) result }
        ensures used { self.new.calls ≡ self.old.calls - 1 }
        ensures blown { self.old.calls ≡ 0 → IsErr result }
        ensures unreached { self.old.calls ≡ 0 → self.new.disk ≡ self.old.disk }
        ensures reached { 1 ≤ self.old.calls → self.new.faults ≡ self.old.faults }
    {
        if self.is_blown() {
            return Err(self.fail());
        }
        self.disk.sync()
    }

    fn moment(&self) -> u64 {
        self.disk.moment()
    }
}
