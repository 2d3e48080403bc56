//! The run of `list`.

ghost use Rattle.std.specs.Prelude.{◌≡◌, ◌≢◌};
ghost use Rattle.outside_io.specs.Openings.{Undisturbed};
ghost use Rattle.outside_io.specs.Places.{Untouched};
ghost use Rattle.command_reports.specs.Scenes.{scene};
ghost use Rattle.command_reports.specs.Works.{Runs};
ghost use Rattle.print_commands.specs.Works.{IsListed, ListWorks, list_calls};

use crate::list_command::works::work;
use command_reports::exit_status::Status;
use command_reports::finish;
use outside_io::Outside;
use std::alloc::Global;

/// Runs `list` over a network's name and a table's: opens and reads the network, writes the table
/// of its zones, blocks and operational points, and reports where something refused.
pub fn run_list<O: Outside>(alloc: Global, network: &str, out: &str, outside: &mut O) -> Status
    // All that is done, by the status and the report.
    ensures runs { Runs O.Snk.Sink (list_calls network.now out.now)
        (ListWorks O.Src.Source O.Snk.Sink network.now out.now)
        (scene O.Outside outside.old) (scene O.Outside outside.new) result }
    // At Done the table stands whole behind what its sink held before.
    ensures done { result ≡ Status.Done → IsListed O.Src.Source O.Snk.Sink network.now out.now
        (scene O.Outside outside.old) (scene O.Outside outside.new) }
    // At a refusal no sink gained anything.
    ensures clean { result ≢ Status.Done → result ≢ Status.Report
        → Untouched (O.sinks outside.old) (O.sinks outside.new) }
    // Names that are given are never refused as words.
    ensures words { result ≢ Status.Words }
    // Whatever the status, all that was opened is put back, and no disk is touched.
    ensures back { Undisturbed (O.standing outside.old) (O.standing outside.new) }
    ensures disks { Untouched (O.disks outside.old) (O.disks outside.new) }
{
    let outcome = work(alloc, network, out, outside);
    finish(outcome, outside)
}
