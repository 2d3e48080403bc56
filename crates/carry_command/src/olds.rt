//! The journal that is carried, and what is done while its disk is out.

ghost use Rattle.std.specs.Prelude.{◌≡◌, ◌<◌, ◌^◌, All, IfErr, IfOk, length};
ghost use Rattle.command_reports.specs.Scenes.{scene};
ghost use Rattle.command_files.specs.Timetables.{timetable_on};
ghost use Rattle.print_commands.specs.Journals.{IsHistoryOn, IsRefusedOn};
ghost use Rattle.path_recover.specs.journal.Histories.{bodies_of};
ghost use Rattle.rail_types.specs.Timetables.{IsTimetable};
ghost use Rattle.carry_command.specs.Olds.{LentSays};
ghost use Rattle.carry_command.specs.Works.{CarriesOver, ReadsOld};

use crate::names::CarryNames;
use crate::preparing::prepare;
use crate::writing::write_prepared;
use command_files::{BaseFile, NetworkFile};
use command_reports::{Refusal, not_opened};
use init_command::refusals::from_refusal;
use outside_io::{Disk, Outside};
use path_recover::OpenFault;
use path_recover::history::History;
use path_recover::history_reading::{Found, one_reading, read_journal};
use rail_types::List;
use std::alloc::Global;

// The version of a journal that is carried.
const VERSION: u32 = 2;

/// Opens the disk of the old journal, reads its history by the network and the base timetable of
/// before, writes what is carried of it, and puts the disk back behind that. The disk is only read.
/// A name that could not be opened refuses, as `open: NAME`; a disk that fails, as `disk: NAME`;
/// and a journal of other files, of another version or with damage, as `from: F`.
pub(crate) fn carry_from<O: Outside>(
    alloc: Global,
    names: &CarryNames<'_>,
    network: &NetworkFile,
    base: BaseFile,
    before: BaseFile,
    outside: &mut O,
) -> Result<List<u8>, Refusal>
    requires timetable { IsTimetable (timetable_on network.now base) }
    requires before { IsTimetable (timetable_on network.now before) }
    ensures works { ReadsOld O.Snk.Sink O.Dsk.Disk names.now network.now base before
        (scene O.Outside outside.old) (scene O.Outside outside.new) result }
{
    let Ok(mut disk) = outside.disk(names.from()) else {
        return Err(not_opened(alloc, names.from()));
    };
    let done = carry_lent(alloc, names, network, base, before, &mut disk, outside);
    outside.put_back_disk(names.from(), disk);
    done
}

// The same, while the disk is out.
fn carry_lent<O: Outside>(
    alloc: Global,
    names: &CarryNames<'_>,
    network: &NetworkFile,
    base: BaseFile,
    before: BaseFile,
    disk: &mut O::Dsk,
    outside: &mut O,
) -> Result<List<u8>, Refusal>
    requires timetable { IsTimetable (timetable_on network.now base) }
    requires before { IsTimetable (timetable_on network.now before) }
    ensures says { LentSays O.Dsk.Disk network.now before names.now.from
        (CarriesOver O.Snk.Sink O.Dsk.Disk names.now network.now base) disk.old disk.new
        (scene O.Outside outside.old) (scene O.Outside outside.new) result }
{
    match history_on(alloc, network, before, disk) {
        Ok(found) => carry_history(alloc, names, network, base, found, outside),
        Err(fault) => Err(from_refusal(alloc, names.from(), fault)),
    }
}

// Writes what is carried of a history.
fn carry_history<O: Outside>(
    alloc: Global,
    names: &CarryNames<'_>,
    network: &NetworkFile,
    base: BaseFile,
    found: Found,
    outside: &mut O,
) -> Result<List<u8>, Refusal>
    requires timetable { IsTimetable (timetable_on network.now base) }
    requires net { found.history.timetable.net ≡ network.now.named.network }
    requires short { All (λ body. length body < 2 ^ 32) (bodies_of found.history.entries) }
    ensures works { CarriesOver O.Snk.Sink O.Dsk.Disk names.now network.now base found.history
        (scene O.Outside outside.old) (scene O.Outside outside.new) result }
{
    let may_leave = names.left().is_some();
    let prepared = prepare(alloc, network, base, found, may_leave)?;
    write_prepared(alloc, names, prepared, outside)
}

// The history of the journal on a disk.
fn history_on<D: Disk>(
    alloc: Global,
    network: &NetworkFile,
    base: BaseFile,
    disk: &mut D,
) -> Result<Found, OpenFault>
    requires timetable { IsTimetable (timetable_on network.now base) }
    ensures timetable { IfOk result (λ found.
        found.history.timetable ≡ timetable_on network.now base) }
    ensures history { IfOk result (λ found.
        IsHistoryOn D.Disk network.now base found.history.entries disk.old disk.new) }
    ensures short { IfOk result (λ found.
        All (λ body. length body < 2 ^ 32) (bodies_of found.history.entries)) }
    ensures refused { IfErr result (λ fault.
        IsRefusedOn D.Disk network.now base fault disk.old disk.new) }
{
    one_reading();
    let Ok(net) = network.named.network.copy(alloc) else {
        return Err(OpenFault::Memory);
    };
    let empty = History::new(alloc, net, base.base);
    match read_journal(alloc, disk, empty, VERSION, &network.digest, &base.digest) {
        Ok(found) => Ok(found),
        Err(fault) => Err(fault),
    }
}
