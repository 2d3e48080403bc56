//! The run of `check`.

ghost use Rattle.std.specs.Prelude.{◌≡◌, ◌≢◌, ℕ, List as list_of};
ghost use Rattle.outside_io.specs.Openings.{Undisturbed};
ghost use Rattle.outside_io.specs.Places.{Untouched};
ghost use Rattle.command_reports.specs.Scenes.{scene};
ghost use Rattle.print_commands.specs.Steps.{WasOnlyRead};
ghost use Rattle.check_command.specs.Runs.{check_names, EndsRun, IsChecked, IsRefused};
ghost use Rattle.check_command.specs.Runs.{ReportsLine, RunsCheck};

use crate::works::work;
use command_reports::exit_status::Status;
use command_reports::file_rounds::write_report;
use command_reports::{Refusal, finish};
use outside_io::Outside;
use rail_types::List;
use std::alloc::Global;

/// Runs `check` over the names of a network's file, a train file, a base timetable's, a journal and
/// a file of proofs: opens and reads them, judges each proof at the first entries of the journal's
/// history that it names, and reports how many proofs there are, where each holds; or what refused.
/// A proof that is not understood, one whose request has too many places and one that fails end
/// with `No`, the first of them told, and so does a file of proofs that is too long.
pub fn run_check<O: Outside>(
    alloc: Global,
    network: &str,
    trains: &str,
    base: &str,
    journal: &str,
    proof: &str,
    outside: &mut O,
) -> Status
    // All that is done, by the status and the report.
    ensures runs { RunsCheck O.Src.Source O.Snk.Sink O.Dsk.Disk
        (check_names network.now trains.now base.now journal.now proof.now)
        (scene O.Outside outside.old) (scene O.Outside outside.new) result }
    // At Done each proof of the file holds, and their number was reported.
    ensures done { result ≡ Status.Done → IsChecked O.Src.Source O.Snk.Sink O.Dsk.Disk network.now
        trains.now base.now journal.now proof.now (scene O.Outside outside.old)
        (scene O.Outside outside.new) }
    // At No the journal was read, and a proof does not hold, or the file of proofs is too long.
    ensures no { result ≡ Status.No → IsRefused O.Src.Source O.Dsk.Disk network.now trains.now
        base.now journal.now proof.now (scene O.Outside outside.old) }
    // No sink but the report gains anything.
    ensures clean { Untouched (O.sinks outside.old) (O.sinks outside.new) }
    // Names that are given are never refused as words.
    ensures words { result ≢ Status.Words }
    // Whatever the status, all that was opened is put back, the journal was only read,
    // and no other disk is touched.
    ensures back { Undisturbed (O.standing outside.old) (O.standing outside.new) }
    ensures read { WasOnlyRead O.Dsk.Disk (O.disks outside.old journal.now)
        (O.disks outside.new journal.now) }
    ensures disks { (name : list_of ℕ) → name ≢ journal.now
        → O.disks outside.new name ≡ O.disks outside.old name }
{
    let outcome = work(alloc, network, trains, base, journal, proof, outside);
    end(outcome, outside)
}

// Reports how many proofs hold, or what refused.
fn end<O: Outside>(outcome: Result<List<u8>, Refusal>, outside: &mut O) -> Status
    ensures ends { EndsRun O.Snk.Sink (scene O.Outside outside.old) (scene O.Outside outside.new)
        outcome result }
{
    match outcome {
        Ok(line) => tell(&line, outside),
        Err(refusal) => finish(Err(refusal), outside),
    }
}

// Reports a line.
fn tell<O: Outside>(line: &List<u8>, outside: &mut O) -> Status
    ensures ends { ReportsLine O.Snk.Sink line.now (scene O.Outside outside.old)
        (scene O.Outside outside.new) result }
{
    match write_report(line.as_slice(), outside) {
        Ok(()) => Status::Done,
        Err(_) => Status::Report,
    }
}
