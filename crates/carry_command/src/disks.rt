//! The disk of the new journal.

ghost use Rattle.command_reports.specs.Scenes.{scene};
ghost use Rattle.command_reports.specs.Disks.{ChangesOnlyDisk};
ghost use Rattle.carry_command.specs.Unfinished.{IsMarked};
ghost use Rattle.carry_command.specs.Disks.{DiskEnds, EmptyStep, IsEmpty, IsNotEmptyDisk};
ghost use Rattle.carry_command.specs.Disks.{IsNotWritten, IsWritten, WriteStep};

use crate::whole_files::{check_empty, write_whole};
use command_reports::{Refusal, not_opened};
use init_command::refusals::init_refusal;
use outside_io::Outside;
use path_recover::InitFault;
use std::alloc::Global;

// Why something was not done with a disk.
#[derive(Clone, Copy, Debug, PartialEq, Eq)]
pub(crate) enum NotDone {
    // The name could not be opened.
    NotOpened,
    // The disk was opened, and refused.
    Refused(InitFault),
}

/// Opens the disk of the new journal, finds it empty, and puts it back.
pub(crate) fn find_empty<O: Outside>(
    alloc: Global,
    name: &str,
    outside: &mut O,
) -> Result<(), Refusal>
    ensures step { EmptyStep O.Dsk.Disk name.now (scene O.Outside outside.old)
        (scene O.Outside outside.new) result }
{
    match look_at(name, outside) {
        Ok(()) => Ok(()),
        Err(NotDone::NotOpened) => Err(not_opened(alloc, name)),
        Err(NotDone::Refused(fault)) => Err(init_refusal(alloc, name, fault)),
    }
}

// Opens a disk, looks whether it is empty, and puts it back.
fn look_at<O: Outside>(name: &str, outside: &mut O) -> Result<(), NotDone>
    ensures says { DiskEnds (IsEmpty O.Dsk.Disk) (IsNotEmptyDisk O.Dsk.Disk) name.now
        (scene O.Outside outside.old) (scene O.Outside outside.new) result }
    ensures only { ChangesOnlyDisk name.now (scene O.Outside outside.old)
        (scene O.Outside outside.new) }
{
    let Ok(mut disk) = outside.disk(name) else {
        return Err(NotDone::NotOpened);
    };
    let found = check_empty(&mut disk);
    outside.put_back_disk(name, disk);
    match found {
        Ok(()) => Ok(()),
        Err(fault) => Err(NotDone::Refused(fault)),
    }
}

/// Opens the disk of the new journal, writes the journal to it whole, and puts it back.
pub(crate) fn write_journal<O: Outside>(
    alloc: Global,
    name: &str,
    file: &[u8],
    outside: &mut O,
) -> Result<(), Refusal>
    requires marked { IsMarked file.now }
    ensures step { WriteStep O.Dsk.Disk file.now name.now (scene O.Outside outside.old)
        (scene O.Outside outside.new) result }
{
    match write_disk(name, file, outside) {
        Ok(()) => Ok(()),
        Err(NotDone::NotOpened) => Err(not_opened(alloc, name)),
        Err(NotDone::Refused(fault)) => Err(init_refusal(alloc, name, fault)),
    }
}

// Opens a disk, writes a file to it whole, and puts it back.
fn write_disk<O: Outside>(name: &str, file: &[u8], outside: &mut O) -> Result<(), NotDone>
    requires marked { IsMarked file.now }
    ensures says { DiskEnds (IsWritten O.Dsk.Disk file.now) (IsNotWritten O.Dsk.Disk file.now)
        name.now (scene O.Outside outside.old) (scene O.Outside outside.new) result }
    ensures only { ChangesOnlyDisk name.now (scene O.Outside outside.old)
        (scene O.Outside outside.new) }
{
    let Ok(mut disk) = outside.disk(name) else {
        return Err(NotDone::NotOpened);
    };
    let written = write_whole(&mut disk, file);
    outside.put_back_disk(name, disk);
    match written {
        Ok(()) => Ok(()),
        Err(fault) => Err(NotDone::Refused(fault)),
    }
}
