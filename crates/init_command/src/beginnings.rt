//! A journal begun on a disk.

ghost use Rattle.std.specs.Prelude.{◌≡◌};
ghost use Rattle.command_reports.specs.Scenes.{scene};
ghost use Rattle.init_command.specs.Begins.{BeginStep, DiskSays};
ghost use Rattle.command_reports.specs.Disks.{ChangesOnlyDisk};

use crate::refusals::init_refusal;
use command_reports::exit_status::Status;
use command_reports::{Refusal, not_opened};
use outside_io::Outside;
use path_recover::{InitFault, init};
use std::alloc::Global;

// Why no journal was begun.
#[derive(Clone, Copy, Debug, PartialEq, Eq)]
pub(crate) enum NotBegun {
    // The name could not be opened.
    NotOpened,
    // The disk was opened, and refused.
    Refused(InitFault),
}

/// Opens a disk, begins a journal on it for files with these digests, and puts it back.
pub(crate) fn begin_journal<O: Outside>(
    alloc: Global,
    network: &[u8; 32],
    base: &[u8; 32],
    name: &str,
    outside: &mut O,
) -> Result<Status, Refusal>
    ensures step { BeginStep O.Dsk.Disk network.now base.now name.now
        (scene O.Outside outside.old) (scene O.Outside outside.new) result }
{
    match begin_disk(network, base, name, outside) {
        Ok(()) => Ok(Status::Done),
        Err(NotBegun::NotOpened) => Err(not_opened(alloc, name)),
        Err(NotBegun::Refused(fault)) => Err(init_refusal(alloc, name, fault)),
    }
}

// Opens a disk, begins a journal on it, and puts it back.
fn begin_disk<O: Outside>(
    network: &[u8; 32],
    base: &[u8; 32],
    name: &str,
    outside: &mut O,
) -> Result<(), NotBegun>
    ensures says { DiskSays O.Dsk.Disk network.now base.now name.now (scene O.Outside outside.old)
        (scene O.Outside outside.new) result }
    ensures only { ChangesOnlyDisk name.now (scene O.Outside outside.old)
        (scene O.Outside outside.new) }
{
    let Ok(mut disk) = outside.disk(name) else {
        return Err(NotBegun::NotOpened);
    };
    let begun = init(&mut disk, network, base);
    outside.put_back_disk(name, disk);
    match begun {
        Ok(()) => Ok(()),
        Err(fault) => Err(NotBegun::Refused(fault)),
    }
}
