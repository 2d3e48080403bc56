//! The run of `carry`.

ghost use Rattle.std.specs.Prelude.{◌≡◌, ◌≢◌, ◌⊎◌, ℕ, List as list_of, Some};
ghost use Rattle.outside_io.specs.Openings.{Undisturbed};
ghost use Rattle.outside_io.specs.Places.{Replaces, Untouched};
ghost use Rattle.command_reports.specs.Scenes.{Scene, scene};
ghost use Rattle.print_commands.specs.Steps.{WasOnlyRead};
ghost use Rattle.carry_command.specs.Disks.{IsEmpty};
ghost use Rattle.carry_command.specs.Runs.{EndsRun, HasPrepared, IsCarried, IsNotCarried};
ghost use Rattle.carry_command.specs.Runs.{RunsCarry, WasCarriedTo};

use crate::names::CarryNames;
use crate::works::work;
use command_reports::exit_status::Status;
use command_reports::file_rounds::write_report;
use command_reports::{Refusal, finish};
use outside_io::Outside;
use rail_types::List;
use std::alloc::Global;

/// Runs `carry` over these names: opens and reads the network, the base timetable and the base
/// timetable of before, finds the disk of the new journal empty, and opens and reads the old
/// journal, which is one of the network and the base timetable of before. The live holds and grants
/// of the old journal are judged by the timetable and by those carried before them. Where one is
/// not fresh by them, it is left out, and its line written, if there is a file for such lines; if
/// not, the command ends with `No`, the line of the first such entry is reported, and nothing is
/// written. Once the lines are written, a journal for the network and the base timetable is written
/// to the empty disk, with all that is carried. The disk of the old journal is put back behind
/// that, so that nobody sells over it meanwhile. At the end it is reported how many entries were
/// carried, and how many left out.
pub fn run_carry<O: Outside>(alloc: Global, names: &CarryNames<'_>, outside: &mut O) -> Status
    // All that is done, by the status and the report.
    ensures runs { RunsCarry O.Src.Source O.Snk.Sink O.Dsk.Disk names.now
        (scene O.Outside outside.old) (scene O.Outside outside.new) result }
    // At Done the new journal stands with all that is carried, and the lines of all that is left
    // out.
    ensures done { result ≡ Status.Done → IsCarried O.Src.Source O.Snk.Sink O.Dsk.Disk names.now
        (scene O.Outside outside.old) (scene O.Outside outside.new) }
    // At No an entry would be left out, and the line of the first such one is reported.
    ensures no { result ≡ Status.No → IsNotCarried O.Src.Source O.Snk.Sink O.Dsk.Disk names.now
        (scene O.Outside outside.old) (scene O.Outside outside.new) }
    // At No nothing was written: the disk of the new journal is empty, and was only looked at.
    ensures unwritten { result ≡ Status.No → names.now.from ≢ names.now.journal
        → Replaces (IsEmpty O.Dsk.Disk) (O.disks outside.old names.now.journal)
        (O.disks outside.new names.now.journal) }
    // Whatever the status, the disk of the new journal was not touched, or only looked at; or it
    // was empty, and at each moment a crash left what it would have left before, or the whole
    // journal that this run worked out, or bytes that are told from it and are opened as no
    // journal.
    ensures moments { names.now.from ≢ names.now.journal → WasCarriedTo O.Src.Source O.Dsk.Disk
        names.now (scene O.Outside outside.old) (O.disks outside.old names.now.journal)
        (O.disks outside.new names.now.journal) }
    // Whatever the status, the old journal was only read.
    ensures read { names.now.from ≢ names.now.journal → WasOnlyRead O.Dsk.Disk
        (O.disks outside.old names.now.from) (O.disks outside.new names.now.from) }
    // No sink but the report gained anything, unless all was read and worked out.
    ensures clean { Untouched (O.sinks outside.old) (O.sinks outside.new)
        ⊎ (out : Scene O.Src O.Snk O.Dsk)
        × HasPrepared O.Src.Source O.Dsk.Disk names.now (scene O.Outside outside.old) out }
    // Names that are given are never refused as words.
    ensures words { result ≢ Status.Words }
    // Whatever the status, all that was opened is put back, no sink but that of the lines and the
    // report gained anything, and no other disk changed.
    ensures back { Undisturbed (O.standing outside.old) (O.standing outside.new) }
    ensures sinks { (name : list_of ℕ) → names.now.left ≢ Some name
        → O.sinks outside.new name ≡ O.sinks outside.old name }
    ensures disks { (name : list_of ℕ) → name ≢ names.now.journal → name ≢ names.now.from
        → O.disks outside.new name ≡ O.disks outside.old name }
{
    let outcome = work(alloc, names, outside);
    end(outcome, outside)
}

// Reports how many entries were carried, or what refused.
fn end<O: Outside>(outcome: Result<List<u8>, Refusal>, outside: &mut O) -> Status
    ensures ends { EndsRun O.Snk.Sink (scene O.Outside outside.old) (scene O.Outside outside.new)
        outcome result }
{
    match outcome {
        Ok(told) => match write_report(told.as_slice(), outside) {
            Ok(()) => Status::Done,
            Err(_) => Status::Report,
        },
        Err(refusal) => finish(Err(refusal), outside),
    }
}
