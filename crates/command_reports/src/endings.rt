//! The end of a command.

ghost use Rattle.command_reports.specs.Scenes.{scene};
ghost use Rattle.command_reports.specs.Reports.{EndSays, TellsRefusal};

use crate::exit_status::Status;
use crate::file_rounds::write_report;
use crate::refusals::Refusal;
use outside_io::Outside;

/// Ends a command: a refusal is reported, and gives its status, whether the report takes its
/// line or not. Takes no memory.
pub fn finish<O: Outside>(outcome: Result<Status, Refusal>, outside: &mut O) -> Status
    ensures says { EndSays O.Snk.Sink (scene O.Outside outside.old) (scene O.Outside outside.new)
        outcome result }
{
    match outcome {
        Ok(status) => status,
        Err(refusal) => tell(&refusal, outside),
    }
}

// Reports a refusal, and answers its status.
fn tell<O: Outside>(refusal: &Refusal, outside: &mut O) -> Status
    ensures told { TellsRefusal O.Snk.Sink refusal.now (scene O.Outside outside.old)
        (scene O.Outside outside.new) result }
{
    let _reported = write_report(refusal.line(), outside);
    refusal.status()
}
