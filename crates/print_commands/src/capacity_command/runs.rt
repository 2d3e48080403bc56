//! The run of `capacity`.

ghost use Rattle.std.specs.Prelude.{◌≡◌, ◌≢◌, ◌<◌, ℕ, List};
ghost use Rattle.outside_io.specs.Openings.{Undisturbed};
ghost use Rattle.outside_io.specs.Places.{Untouched};
ghost use Rattle.command_reports.specs.Scenes.{scene};
ghost use Rattle.command_reports.specs.Works.{Runs};
ghost use Rattle.print_commands.specs.Steps.{IsPrinted, print_calls, Prints, ReadsHistory};
ghost use Rattle.print_commands.specs.Steps.{WasOnlyRead};
ghost use Rattle.print_commands.specs.Capacities.{HasNoCapacity, TellsCapacity};

use crate::capacity_command::works::work;
use capacity_406::Stretch;
use command_reports::exit_status::Status;
use command_reports::finish;
use outside_io::Outside;
use std::alloc::Global;

/// Runs `capacity` over the names of a network's file, a base timetable's and a journal, a stretch
/// with a window of ticks from `from` on and before `to`, and the name of a text: opens and reads
/// the three, writes the capacity of the stretch, and reports where something refused. A zone that
/// the network doesn't have, and more trains than one compression takes, end with `No`.
pub fn run_capacity<O: Outside>(
    alloc: Global,
    network: &str,
    base: &str,
    journal: &str,
    stretch: &Stretch,
    out: &str,
    outside: &mut O,
) -> Status
    requires window { stretch.now.from < stretch.now.to }
    // All that is done, by the status and the report.
    ensures runs { Runs O.Snk.Sink (print_calls network.now base.now journal.now out.now)
        (Prints O.Snk.Sink
        (ReadsHistory O.Src.Source O.Dsk.Disk network.now base.now journal.now) out.now
        (TellsCapacity stretch.now)) (scene O.Outside outside.old) (scene O.Outside outside.new)
        result }
    // At Done the text of the stretch's capacity stands whole behind what its sink held before.
    ensures done { result ≡ Status.Done → IsPrinted O.Src.Source O.Snk.Sink O.Dsk.Disk network.now
        base.now journal.now out.now (TellsCapacity stretch.now) (scene O.Outside outside.old)
        (scene O.Outside outside.new) }
    // At No the journal was read, and a zone is none of its network, or the trains
    // of the stretch are too many.
    ensures no { result ≡ Status.No → HasNoCapacity O.Src.Source O.Dsk.Disk network.now base.now
        journal.now stretch.now (scene O.Outside outside.old) }
    // At a refusal no sink gained anything.
    ensures clean { result ≢ Status.Done → result ≢ Status.Report
        → Untouched (O.sinks outside.old) (O.sinks outside.new) }
    // Names that are given are never refused as words.
    ensures words { result ≢ Status.Words }
    // Whatever the status, all that was opened is put back, the journal was only read,
    // and no other disk is touched.
    ensures back { Undisturbed (O.standing outside.old) (O.standing outside.new) }
    ensures read { WasOnlyRead O.Dsk.Disk (O.disks outside.old journal.now)
        (O.disks outside.new journal.now) }
    ensures disks { (name : List ℕ) → name ≢ journal.now
        → O.disks outside.new name ≡ O.disks outside.old name }
{
    let outcome = work(alloc, network, base, journal, stretch, out, outside);
    finish(outcome, outside)
}
