//! All that is written, before anything is.

ghost use Rattle.std.specs.Prelude.{◌≡◌, ◌<◌, ◌^◌, All, IfOk, length};
ghost use Rattle.command_files.specs.Timetables.{timetable_on};
ghost use Rattle.path_recover.specs.journal.Histories.{bodies_of};
ghost use Rattle.rail_types.specs.Timetables.{IsTimetable};
ghost use Rattle.carry_command.specs.Unfinished.{IsMarked};
ghost use Rattle.carry_command.specs.Inside.{TellsOf};
ghost use Rattle.carry_command.specs.Prepared.{Prepares};

use crate::carried_history::{Carried, carry};
use crate::lines::{left_refusal, lines_of, told_of};
use command_files::{BaseFile, NetworkFile};
use command_reports::Refusal;
use no_memory::NoMemory;
use path_recover::history::History;
use path_recover::history_reading::Found;
use rail_types::List;
use std::alloc::Global;

/// The new journal's bytes, the lines of the entries that are left out, and the line of the report.
#[derive(Debug, Drop)]
pub struct Prepared {
    pub file: List<u8>,
    pub lines: List<u8>,
    pub told: List<u8>,
}

// What is written of what was carried of a history, where entries may be left out or not.
fn told_by(
    alloc: Global,
    old: &History,
    carried: Carried,
    may_leave: bool,
) -> Result<Prepared, Refusal>
    requires within { All (λ one. one.at < length old.now.entries) carried.left.items }
    ensures { TellsOf old.now.entries may_leave carried result }
{
    let left = carried.left.as_slice();
    if !may_leave {
        if let Some(first) = left.first() {
            return Err(left_refusal(alloc, old, first));
        }
    }
    let Ok(lines) = lines_of(alloc, old, left) else {
        return Err(Refusal::Memory);
    };
    let Ok(told) = told_of(alloc, carried.kept.len() as u64, left.len() as u64) else {
        return Err(Refusal::Memory);
    };
    Ok(Prepared {
        file: carried.file,
        lines,
        told,
    })
}

/// Carries an old history, as it was read, into the timetable of these files, and spells all that
/// is written. Where no entry may be left out, the first that would be refuses, as `entry I owner
/// NAME number N REASON`.
pub(crate) fn prepare(
    alloc: Global,
    network: &NetworkFile,
    base: BaseFile,
    old: Found,
    may_leave: bool,
) -> Result<Prepared, Refusal>
    requires timetable { IsTimetable (timetable_on network.now base) }
    requires net { old.history.timetable.net ≡ network.now.named.network }
    requires short { All (λ body. length body < 2 ^ 32) (bodies_of old.history.entries) }
    ensures prepares { Prepares network.now base old.history may_leave result }
    ensures marked { IfOk result (λ prepared. IsMarked prepared.file) }
{
    let Ok(net) = network.named.network.copy(alloc) else {
        return Err(Refusal::Memory);
    };
    let BaseFile { base, digest } = base;
    let empty = History::new(alloc, net, base);
    let Found {
        history,
        claims,
        gate,
    } = old;
    let bytes = gate.saturating_add(1);
    match carry(
        alloc,
        &history,
        claims,
        bytes,
        &empty,
        &network.digest,
        &digest,
    ) {
        Ok(carried) => told_by(alloc, &history, carried, may_leave),
        Err(NoMemory) => Err(Refusal::Memory),
    }
}
