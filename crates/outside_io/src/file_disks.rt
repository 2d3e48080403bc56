// A file of the machine as a disk. No clause says which bytes it holds.
ghost use Rattle.std.specs.Prelude.{◌≡◌, ◌+◌, ◌-◌, ◌≤◌, ◌<◌, ◌^◌, length, min, None, IfSome};
ghost use Rattle.outside_io.specs.Faults.{next_count};

use crate::{Disk, Failed};
use std::fs::File;
use std::io::ErrorKind;
use std::os::unix::fs::FileExt;

/// A file. It tells only its count of faults, and its clock, which rises at each write and sync.
#[derive(Drop)]
pub struct FileDisk {
    file: File,
    moment: u64,
    faults: u64,
}

// As many bytes as stand there, in as many reads as it takes. None where one failed.
fn read_all_at(file: &File, at: u64, into: &mut [u8]) -> Option<usize>
    ensures { IfSome result (λ count. count ≤ length into.new) }
{
    let mut got = 0;
    for _ in 0..u64::MAX {
        if got >= into.len() {
            return Some(got);
        }
        match file.read_at(&mut into[got..], at.saturating_add(got as u64)) {
            Ok(0) => return Some(got),
            Ok(count) => got += count,
            Err(error) if error.kind() == ErrorKind::Interrupted => {}
            Err(_) => return None,
        }
    }
    None
}

impl FileDisk {
    // A file that was opened, to be read at least.
    pub(crate) fn new(file: File) -> FileDisk
        ensures { result.faults ≡ 0 }
    {
        FileDisk {
            file,
            moment: 0,
            faults: 0,
        }
    }

    fn tick(&mut self)
        ensures faults { self.new.faults ≡ self.old.faults }
        ensures later { self.old.moment ≤ self.new.moment }
        ensures by_one { self.new.moment ≤ self.old.moment + 1 }
    {
        self.moment = self.moment.saturating_add(1);
    }

    fn fail(&mut self)
        ensures moment { self.new.moment ≡ self.old.moment }
        ensures faults { self.new.faults ≡ next_count self.old.faults }
        ensures later { self.old.faults ≤ self.new.faults }
    {
        self.faults = self.faults.saturating_add(1);
    }
}

impl Disk for FileDisk {
    ghost contents = { λ _. None };

    ghost images = { λ _ _. ⊥ };

    ghost clock = { λ d. d.moment };

    ghost since = { λ _ _ _. ⊥ };

    ghost faults = { λ d. d.faults };

    ghost use Rattle.outside_io.specs.Untold.{untold_contents};

    ghost contents_are_image = { λ d bytes told. untold_contents bytes told };

    ghost counts_now = { λ d moment image le now. now };

    ghost only_now = { λ d image since. since };

    ghost since_earlier = { λ d earlier moment image le since. since };

    fn len(&mut self) -> Result<u64, Failed> {
        let Ok(data) = self.file.metadata() else {
            self.fail();
            return Err(Failed);
        };
        Ok(data.len())
    }

    fn read(&mut self, at: u64, into: &mut [u8]) -> Result<usize, Failed> {
        let Some(count) = read_all_at(&self.file, at, into) else {
            self.fail();
            return Err(Failed);
        };
        Ok(count)
    }

    fn write_at(&mut self, at: u64, piece: &[u8]) -> Result<(), Failed> {
        self.tick();
        let Ok(()) = self.file.write_all_at(piece, at) else {
            self.fail();
            return Err(Failed);
        };
        Ok(())
    }

    fn sync(&mut self) -> Result<(), Failed> {
        self.tick();
        let Ok(()) = self.file.sync_all() else {
            self.fail();
            return Err(Failed);
        };
        Ok(())
    }

    fn moment(&self) -> u64 {
        self.moment
    }
}
