//! The history of a journal.

ghost use Rattle.std.specs.Prelude.{◌≡◌, IfErr, IfOk};
ghost use Rattle.command_reports.specs.Scenes.{scene};
ghost use Rattle.command_reports.specs.Disks.{ChangesOnlyDisk};
ghost use Rattle.command_files.specs.Timetables.{timetable_on};
ghost use Rattle.print_commands.specs.Journals.{DiskSays, IsHistoryOn, IsRefusedOn, JournalStep};
ghost use Rattle.rail_types.specs.Timetables.{IsTimetable};

use crate::refusals::journal_refusal;
use command_files::{BaseFile, NetworkFile};
use command_reports::{Refusal, not_opened};
use grant_log::History;
use outside_io::{Disk, Outside};
use path_recover::OpenFault;
use path_recover::history_reading::{one_reading, read_journal};
use rail_types::named_network::Named;
use std::alloc::Global;

// The version of a journal that is read.
const VERSION: u32 = 2;

// Why no history was read.
#[derive(Clone, Copy, Debug, PartialEq, Eq)]
pub(crate) enum NotRead {
    // The name could not be opened.
    NotOpened,
    // The disk was opened, and refused.
    Refused(OpenFault),
}

/// Opens the disk of a journal, reads its history by the network and the base timetable of these
/// files, and puts the disk back. The disk is only read. A name that could not be opened refuses,
/// as `open: NAME`; a disk that fails, as `disk: NAME`; and a journal of other files, of another
/// version or with damage, as `journal: F`.
pub fn read_journal_file<O: Outside>(
    alloc: Global,
    network: NetworkFile,
    base: BaseFile,
    name: &str,
    outside: &mut O,
) -> Result<History, Refusal>
    requires timetable { IsTimetable (timetable_on network base) }
    ensures step { JournalStep O.Dsk.Disk network base name.now
        (scene O.Outside outside.old) (scene O.Outside outside.new) result }
{
    match read_disk(alloc, network, base, name, outside) {
        Ok(history) => Ok(history),
        Err(NotRead::NotOpened) => Err(not_opened(alloc, name)),
        Err(NotRead::Refused(fault)) => Err(journal_refusal(alloc, name, fault)),
    }
}

// Opens a disk, reads the history of its journal, and puts it back.
fn read_disk<O: Outside>(
    alloc: Global,
    network: NetworkFile,
    base: BaseFile,
    name: &str,
    outside: &mut O,
) -> Result<History, NotRead>
    requires timetable { IsTimetable (timetable_on network base) }
    ensures says { DiskSays O.Dsk.Disk network base name.now
        (scene O.Outside outside.old) (scene O.Outside outside.new) result }
    ensures only { ChangesOnlyDisk name.now (scene O.Outside outside.old)
        (scene O.Outside outside.new) }
{
    let Ok(mut disk) = outside.disk(name) else {
        return Err(NotRead::NotOpened);
    };
    let read = history_on(alloc, network, base, &mut disk);
    outside.put_back_disk(name, disk);
    match read {
        Ok(history) => Ok(history),
        Err(fault) => Err(NotRead::Refused(fault)),
    }
}

// The history of the journal on a disk.
fn history_on<D: Disk>(
    alloc: Global,
    network: NetworkFile,
    base: BaseFile,
    disk: &mut D,
) -> Result<History, OpenFault>
    requires timetable { IsTimetable (timetable_on network base) }
    ensures timetable { IfOk result (λ history. history.timetable ≡ timetable_on network base) }
    ensures history { IfOk result (λ history.
        IsHistoryOn D.Disk network base history.entries disk.old disk.new) }
    ensures refused { IfErr result (λ fault.
        IsRefusedOn D.Disk network base fault disk.old disk.new) }
{
    one_reading();
    let NetworkFile { named, digest } = network;
    let Named { network: net, .. } = named;
    let empty = History::new(alloc, net, base.base);
    match read_journal(alloc, disk, empty, VERSION, &digest, &base.digest) {
        Ok(found) => Ok(found.history),
        Err(fault) => Err(fault),
    }
}
