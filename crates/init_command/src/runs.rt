//! The runs of `init`.

ghost use Rattle.std.specs.Prelude.{◌≡◌, ◌≢◌, ℕ, List};
ghost use Rattle.outside_io.specs.Openings.{Undisturbed};
ghost use Rattle.outside_io.specs.Places.{Untouched};
ghost use Rattle.command_reports.specs.Scenes.{scene};
ghost use Rattle.command_reports.specs.Works.{Runs};
ghost use Rattle.init_command.specs.Works.{BeginOver, init_calls, IsDone, move_calls, MoveOver};
ghost use Rattle.init_command.specs.Works.{ReadsBoth};

use crate::works::{begin, move_over};
use command_reports::exit_status::Status;
use command_reports::finish;
use outside_io::Outside;
use std::alloc::Global;

/// Runs `init` over the names of a network's file, a base timetable's and a new journal: opens and
/// reads the two files, begins a journal for them on the disk of the third name, which must be
/// empty, and reports where something refused.
pub fn run_init<O: Outside>(
    alloc: Global,
    network: &str,
    base: &str,
    journal: &str,
    outside: &mut O,
) -> Status
    // All that is done, by the status and the report.
    ensures runs { Runs O.Snk.Sink (init_calls network.now base.now journal.now)
        (ReadsBoth O.Src.Source network.now base.now (BeginOver O.Dsk.Disk journal.now))
        (scene O.Outside outside.old) (scene O.Outside outside.new) result }
    // At Done both files were read, and a journal of them stands on the disk.
    ensures done { result ≡ Status.Done → IsDone O.Src.Source network.now base.now
        (BeginOver O.Dsk.Disk journal.now) (scene O.Outside outside.old)
        (scene O.Outside outside.new) }
    // Names that are given are never refused as words.
    ensures words { result ≢ Status.Words }
    // Whatever the status, all that was opened is put back, no sink but the report gained
    // anything, and no other disk changed.
    ensures back { Undisturbed (O.standing outside.old) (O.standing outside.new) }
    ensures sinks { Untouched (O.sinks outside.old) (O.sinks outside.new) }
    ensures disks { (name : List ℕ) → name ≢ journal.now
        → O.disks outside.new name ≡ O.disks outside.old name }
{
    let outcome = begin(alloc, network, base, journal, outside);
    finish(outcome, outside)
}

/// Runs `init` with the name of an old journal beside the three: a journal of version 1, of
/// the same two files. Its entries are moved to the disk of the new journal, which must be
/// empty; the old disk is only read.
pub fn run_move<O: Outside>(
    alloc: Global,
    network: &str,
    base: &str,
    journal: &str,
    from: &str,
    outside: &mut O,
) -> Status
    // All that is done, by the status and the report.
    ensures runs { Runs O.Snk.Sink (move_calls network.now base.now journal.now from.now)
        (ReadsBoth O.Src.Source network.now base.now (MoveOver O.Dsk.Disk journal.now from.now))
        (scene O.Outside outside.old) (scene O.Outside outside.new) result }
    // At Done both files were read, and the journal was moved.
    ensures done { result ≡ Status.Done → IsDone O.Src.Source network.now base.now
        (MoveOver O.Dsk.Disk journal.now from.now) (scene O.Outside outside.old)
        (scene O.Outside outside.new) }
    // Names that are given are never refused as words.
    ensures words { result ≢ Status.Words }
    // Whatever the status, all that was opened is put back, no sink but the report gained
    // anything, and no other disk changed.
    ensures back { Undisturbed (O.standing outside.old) (O.standing outside.new) }
    ensures sinks { Untouched (O.sinks outside.old) (O.sinks outside.new) }
    ensures disks { (name : List ℕ) → name ≢ journal.now → name ≢ from.now
        → O.disks outside.new name ≡ O.disks outside.old name }
{
    let outcome = move_over(alloc, network, base, journal, from, outside);
    finish(outcome, outside)
}
