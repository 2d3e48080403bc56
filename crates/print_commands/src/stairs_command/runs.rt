//! The run of `stairs`.

ghost use Rattle.std.specs.Prelude.{◌≡◌, ◌≢◌, ℕ, List};
ghost use Rattle.outside_io.specs.Openings.{Undisturbed};
ghost use Rattle.outside_io.specs.Places.{Untouched};
ghost use Rattle.command_reports.specs.Scenes.{scene};
ghost use Rattle.command_reports.specs.Works.{Runs};
ghost use Rattle.print_commands.specs.Steps.{IsPrinted, print_calls, Prints, ReadsHistory};
ghost use Rattle.print_commands.specs.Steps.{WasOnlyRead};
ghost use Rattle.print_commands.specs.Tables.{HasNoGrant, TellsStairs};

use crate::stairs_command::works::work;
use command_reports::exit_status::Status;
use command_reports::finish;
use outside_io::Outside;
use std::alloc::Global;

/// Runs `stairs` over the names of a network's file, a base timetable's and a journal, the
/// position of an entry, and the name of a table: opens and reads the three, writes the
/// stairway table of the path that the entry grants, and reports where something refused. An
/// entry that is no grant ends with `No`.
pub fn run_stairs<O: Outside>(
    alloc: Global,
    network: &str,
    base: &str,
    journal: &str,
    entry: u64,
    out: &str,
    outside: &mut O,
) -> Status
    // All that is done, by the status and the report.
    ensures runs { Runs O.Snk.Sink (print_calls network.now base.now journal.now out.now)
        (Prints O.Snk.Sink
        (ReadsHistory O.Src.Source O.Dsk.Disk network.now base.now journal.now) out.now
        (TellsStairs entry)) (scene O.Outside outside.old) (scene O.Outside outside.new) result }
    // At Done the table of the entry's stairway stands whole behind what its sink held before.
    ensures done { result ≡ Status.Done → IsPrinted O.Src.Source O.Snk.Sink O.Dsk.Disk network.now
        base.now journal.now out.now (TellsStairs entry) (scene O.Outside outside.old)
        (scene O.Outside outside.new) }
    // At No the journal was read, and the entry is no grant of its history.
    ensures no { result ≡ Status.No → HasNoGrant O.Src.Source O.Dsk.Disk network.now base.now
        journal.now entry (scene O.Outside outside.old) }
    // At a refusal no sink gained anything.
    ensures clean { result ≢ Status.Done → result ≢ Status.Report
        → Untouched (O.sinks outside.old) (O.sinks outside.new) }
    // Names that are given are never refused as words.
    ensures words { result ≢ Status.Words }
    // Whatever the status, all that was opened is put back, the journal was only read,
    // and no other disk is touched.
    ensures back { Undisturbed (O.standing outside.old) (O.standing outside.new) }
    ensures read { WasOnlyRead O.Dsk.Disk (O.disks outside.old journal.now)
        (O.disks outside.new journal.now) }
    ensures disks { (name : List ℕ) → name ≢ journal.now
        → O.disks outside.new name ≡ O.disks outside.old name }
{
    let outcome = work(alloc, network, base, journal, entry, out, outside);
    finish(outcome, outside)
}
