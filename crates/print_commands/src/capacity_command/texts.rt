//! The capacity of a stretch in a history.

ghost use Rattle.std.specs.Prelude.{◌≡◌, ◌<◌, ◌++◌, decimal, length, IfErr, IfOk, IfSome, IsNone};
ghost use Rattle.command_reports.specs.declared.exit_status.Status.TheVariants.{No};
ghost use Rattle.capacity_406.specs.Report.{IsCapacityText};
ghost use Rattle.capacity_406.specs.Trains.{AreBeside, AreOwnApart};
ghost use Rattle.capacity_406.specs.declared.TheConstants.{MAX_TRAINS as max_trains};
ghost use Rattle.command_reports.specs.Refusals.{IsTold};
ghost use Rattle.print_commands.specs.Capacities.{AreKnown, AreRefused, IsCapacityOf};
ghost use Rattle.print_commands.specs.Capacities.{IsFirstUnknown, IsNotTold, many_line};
ghost use Rattle.print_commands.specs.Capacities.{unknown_line};

use capacity_406::stretch_trains::trains_on;
use capacity_406::{CapacityFault, Occupied, Stretch, capacity_of};
use command_reports::Refusal;
use command_reports::exit_status::Status;
use grant_log::History;
use itoa::Buffer;
use no_memory::NoMemory;
use std::alloc::Global;

/// The capacity of a stretch, for its trains in a history. The first of its two zones that the
/// network doesn't have refuses, as `zone Z unknown`; and more trains than one compression
/// takes, as `trains C too many`.
pub(crate) fn text_of(
    alloc: Global,
    history: &History,
    stretch: &Stretch,
) -> Result<Vec<u8>, Refusal>
    requires window { stretch.now.from < stretch.now.to }
    ensures text { IfOk result (λ text. IsCapacityOf stretch.now history.now text.items) }
    ensures refused { IfErr result (IsNotTold stretch.now history.now) }
{
    if let Some(zone) = unknown_zone(history.net().zones, stretch) {
        return Err(unknown(alloc, zone));
    }
    let selected = trains_on(alloc, history, stretch);
    let Ok(trains) = selected else {
        return Err(Refusal::Memory);
    };
    text_of_trains(alloc, stretch, &trains)
}

// The first of the two zones of a stretch that is none of so many.
fn unknown_zone(zones: u32, stretch: &Stretch) -> Option<u32>
    ensures some { IfSome result (IsFirstUnknown zones stretch.now) }
    ensures none { IsNone result → AreKnown zones stretch.now }
{
    if stretch.first >= zones {
        return Some(stretch.first);
    }
    if stretch.last >= zones {
        return Some(stretch.last);
    }
    None
}

// The capacity of a stretch on which these trains run.
fn text_of_trains(alloc: Global, stretch: &Stretch, trains: &[Occupied]) -> Result<Vec<u8>, Refusal>
    requires window { stretch.now.from < stretch.now.to }
    requires beside { AreBeside trains.now }
    requires own { AreOwnApart trains.now }
    ensures text { IfOk result (λ text. IsCapacityText stretch.now trains.now text.items) }
    ensures few { IfOk result (λ _. ¬ (max_trains < length trains.now)) }
    ensures refused { IfErr result (AreRefused trains.now) }
{
    match capacity_of(alloc, stretch, trains) {
        Ok(text) => Ok(text),
        Err(CapacityFault::Many { count }) => Err(too_many(alloc, count)),
        Err(CapacityFault::Memory) => Err(Refusal::Memory),
    }
}

// A zone is none of the network.
fn unknown(alloc: Global, zone: u32) -> Refusal
    ensures { IsTold No (unknown_line zone) result }
{
    match number_text(alloc, zone, b" unknown") {
        Ok(text) => Refusal::with(alloc, Status::No, b"zone ", text.as_slice()),
        Err(NoMemory) => Refusal::Memory,
    }
}

// There are more trains than one compression takes.
fn too_many(alloc: Global, count: u32) -> Refusal
    ensures { IsTold No (many_line count) result }
{
    match number_text(alloc, count, b" too many") {
        Ok(text) => Refusal::with(alloc, Status::No, b"trains ", text.as_slice()),
        Err(NoMemory) => Refusal::Memory,
    }
}

// A number and what stands behind it.
fn number_text(alloc: Global, number: u32, behind: &[u8]) -> Result<Vec<u8>, NoMemory>
    ensures { IfOk result (λ text. text.items ≡ decimal number ++ behind.now) }
{
    let mut digits = Buffer::new();
    let mut text = Vec::from_slice(alloc, digits.format(number).as_bytes())?;
    text.extend_from_slice(behind)?;
    Ok(text)
}
