//! A journal of version 1 moved to a disk.

ghost use Rattle.std.specs.Prelude.{◌≡◌};
ghost use Rattle.command_reports.specs.Scenes.{scene};
ghost use Rattle.rail_types.specs.Timetables.{IsTimetable};
ghost use Rattle.command_reports.specs.Disks.{ChangesOnlyDisk};
ghost use Rattle.init_command.specs.Moves.{DisksKeep, DisksSay, FromSays, MoveEnds, MoveStep};
ghost use Rattle.init_command.specs.Moves.{TellsMove};
ghost use Rattle.command_files.specs.Timetables.{timetable_on};

use crate::refusals::{from_refusal, not_empty};
use command_files::{BaseFile, NetworkFile};
use command_reports::exit_status::Status;
use command_reports::{Refusal, disk_failed, not_opened};
use outside_io::{Disk, Outside};
use path_recover::{MoveFault, init_from};
use std::alloc::Global;

// Why no journal was moved.
#[derive(Clone, Copy, Debug, PartialEq, Eq)]
pub(crate) enum NotMoved {
    // The name of the new journal could not be opened.
    NotOpened,
    // The name of the old journal could not be opened.
    FromNotOpened,
    // Both were opened, and refused.
    Refused(MoveFault),
}

/// Opens the disk of a new journal and that of an old one, moves the old one's
/// entries, and puts both back.
pub(crate) fn move_journal<O: Outside>(
    alloc: Global,
    network: &NetworkFile,
    base: BaseFile,
    journal: &str,
    from: &str,
    outside: &mut O,
) -> Result<Status, Refusal>
    requires timetable { IsTimetable (timetable_on network.now base) }
    ensures step { MoveStep O.Dsk.Disk network.now base journal.now from.now
        (scene O.Outside outside.old) (scene O.Outside outside.new) result }
{
    match move_disks(alloc, network, base, journal, from, outside) {
        Ok(()) => Ok(Status::Done),
        Err(NotMoved::NotOpened) => Err(not_opened(alloc, journal)),
        Err(NotMoved::FromNotOpened) => Err(not_opened(alloc, from)),
        Err(NotMoved::Refused(fault)) => Err(move_refusal(alloc, journal, from, fault)),
    }
}

// Why no journal was moved by its line.
fn move_refusal(alloc: Global, journal: &str, from: &str, fault: MoveFault) -> Refusal
    ensures { TellsMove journal.now from.now fault result }
{
    match fault {
        MoveFault::NotEmpty { len } => not_empty(alloc, len),
        MoveFault::From(fault) => from_refusal(alloc, from, fault),
        MoveFault::Fault => disk_failed(alloc, journal),
        MoveFault::Memory => Refusal::Memory,
    }
}

// Opens the disk of a new journal, moves an old one to it, and puts it back.
fn move_disks<O: Outside>(
    alloc: Global,
    network: &NetworkFile,
    base: BaseFile,
    journal: &str,
    from: &str,
    outside: &mut O,
) -> Result<(), NotMoved>
    requires timetable { IsTimetable (timetable_on network.now base) }
    ensures says { DisksSay O.Dsk.Disk network.now base journal.now from.now
        (scene O.Outside outside.old) (scene O.Outside outside.new) result }
    ensures keeps { DisksKeep journal.now from.now (scene O.Outside outside.old)
        (scene O.Outside outside.new) result }
{
    let Ok(mut disk) = outside.disk(journal) else {
        return Err(NotMoved::NotOpened);
    };
    let moved = move_from(alloc, network, base, &mut disk, from, outside);
    outside.put_back_disk(journal, disk);
    moved
}

// Opens the disk of an old journal, moves it to a new disk, and puts it back.
fn move_from<O: Outside>(
    alloc: Global,
    network: &NetworkFile,
    base: BaseFile,
    disk: &mut O::Dsk,
    from: &str,
    outside: &mut O,
) -> Result<(), NotMoved>
    requires timetable { IsTimetable (timetable_on network.now base) }
    ensures says { FromSays O.Dsk.Disk network.now base disk.old disk.new from.now
        (scene O.Outside outside.old) (scene O.Outside outside.new) result }
    ensures only { ChangesOnlyDisk from.now (scene O.Outside outside.old)
        (scene O.Outside outside.new) }
{
    let Ok(old) = outside.disk(from) else {
        return Err(NotMoved::FromNotOpened);
    };
    let (old, moved) = move_between(alloc, network, base, disk, old);
    outside.put_back_disk(from, old);
    match moved {
        Ok(()) => Ok(()),
        Err(fault) => Err(NotMoved::Refused(fault)),
    }
}

// Moves the journal of an old disk to a new one, and hands the old one back.
fn move_between<D: Disk + Drop>(
    alloc: Global,
    network: &NetworkFile,
    base: BaseFile,
    disk: &mut D,
    from: D,
) -> (D, Result<(), MoveFault>)
    requires timetable { IsTimetable (timetable_on network.now base) }
    ensures { MoveEnds D.Disk network.now base disk.old disk.new from result.0 result.1 }
{
    let BaseFile { base, digest } = base;
    let net = &network.named.network;
    match init_from(alloc, disk, from, net, base, &network.digest, &digest) {
        Ok((from, _)) => (from, Ok(())),
        Err((from, fault)) => (from, Err(fault)),
    }
}
