//! The run of `demo`.

ghost use Rattle.std.specs.Prelude.{◌≡◌, ◌≢◌};
ghost use Rattle.outside_io.specs.Openings.{Undisturbed};
ghost use Rattle.outside_io.specs.Places.{Untouched};
ghost use Rattle.command_reports.specs.Scenes.{scene};
ghost use Rattle.command_reports.specs.Works.{Runs};
ghost use Rattle.demo_command.specs.Works.{demo_calls, DemoWorks, IsShown};

use crate::works::work;
use command_reports::exit_status::Status;
use command_reports::finish;
use outside_io::Outside;
use std::alloc::AllocGlobal;
use std::sync::Wait;
use std::thread::Threads;

/// Runs `demo` over a number and the name of a text: a client asks a thousand times for a train on
/// a railway that is held in memory, at ticks that the number draws, over a journal in memory that
/// is empty before. Each ask is granted a path or told that there is none, and how many of either
/// there were is written as one line. Where a reply wants memory nothing is written.
pub fn run_demo<R: AllocGlobal + Threads + Wait + Sync, O: Outside>(
    rt: &R,
    number: u32,
    out: &str,
    outside: &mut O,
) -> Status
    // All that is done, by the status and the report.
    ensures runs { Runs O.Snk.Sink (demo_calls out.now) (DemoWorks O.Snk.Sink number out.now)
        (scene O.Outside outside.old) (scene O.Outside outside.new) result }
    // At Done the line stands whole behind what its sink held before.
    ensures done { result ≡ Status.Done → IsShown O.Snk.Sink number out.now
        (scene O.Outside outside.old) (scene O.Outside outside.new) }
    // At a refusal no sink gained anything.
    ensures clean { result ≢ Status.Done → result ≢ Status.Report
        → Untouched (O.sinks outside.old) (O.sinks outside.new) }
    // A number that is given is never refused as words.
    ensures words { result ≢ Status.Words }
    // Whatever the status, all that was opened is put back, and no disk is touched.
    ensures back { Undisturbed (O.standing outside.old) (O.standing outside.new) }
    ensures disks { Untouched (O.disks outside.old) (O.disks outside.new) }
{
    let outcome = work(rt, number, out, outside);
    finish(outcome, outside)
}
