//! The train file.

ghost use Rattle.std.specs.Prelude.{◌≡◌, IfOk};
ghost use Rattle.command_files.specs.Files.{TellsTrains, TrainsSay, TrainStep};
ghost use Rattle.command_reports.specs.Scenes.{scene};
ghost use Rattle.train_file.specs.Trains.{AreTrains};

use crate::files::{FileKind, bytes_of};
use command_reports::Refusal;
use no_memory::NoMemory;
use outside_io::Outside;
use std::alloc::Global;
use train_file::{TrainFault, Trains, read_trains};

/// Opens a train file, reads it as a whole, puts it back, and reads its trains. The first fault of
/// the file refuses, as `trains: F`.
pub fn read_train_file<O: Outside>(
    alloc: Global,
    name: &str,
    outside: &mut O,
) -> Result<Trains, Refusal>
    ensures step { TrainStep O.Src.Source name.now (scene O.Outside outside.old)
        (scene O.Outside outside.new) result }
    ensures sound { IfOk result AreTrains }
{
    let bytes = bytes_of(alloc, FileKind::Trains, name, outside)?;
    let trains = trains_of_bytes(alloc, &bytes)?;
    Ok(trains)
}

// The trains that a file's bytes tell.
fn trains_of_bytes(alloc: Global, bytes: &[u8]) -> Result<Trains, Refusal>
    ensures says { TrainsSay bytes.now result }
    ensures sound { IfOk result AreTrains }
{
    match read_trains(alloc, bytes) {
        Ok(trains) => Ok(trains),
        Err(fault) => Err(train_refused(alloc, fault)),
    }
}

// A fault by its text, and the fault let go.
fn train_refused(alloc: Global, fault: TrainFault) -> Refusal
    ensures { TellsTrains fault result }
{
    train_refusal(alloc, &fault)
}

// A fault by its text.
fn train_refusal(alloc: Global, fault: &TrainFault) -> Refusal
    ensures { TellsTrains fault.now result }
{
    if matches!(fault, TrainFault::Memory) {
        return Refusal::Memory;
    }
    match train_file::fault_text(alloc, fault) {
        Ok(text) => FileKind::Trains.refusal(alloc, text.as_slice()),
        Err(NoMemory) => Refusal::Memory,
    }
}
