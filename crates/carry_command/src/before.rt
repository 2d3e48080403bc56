//! The base timetable by which the old journal was kept.

ghost use Rattle.std.specs.Prelude.{◌≡◌, ◌++◌, codes, IfOk};
ghost use Rattle.command_reports.specs.declared.exit_status.Status.TheVariants.{Base};
ghost use Rattle.command_files.specs.base.Sound.{IsBaseOn};
ghost use Rattle.command_reports.specs.Refusals.{IsTold};
ghost use Rattle.command_reports.specs.Scenes.{scene};
ghost use Rattle.carry_command.specs.Before.{BeforeStep, IsRenamed};

use command_files::{BaseFile, read_base_file};
use command_reports::Refusal;
use command_reports::exit_status::Status;
use no_memory::NoMemory;
use outside_io::Outside;
use rail_types::List;
use std::alloc::Global;

/// Opens the base file to which the old journal belongs, reads it as a whole, puts it back, and
/// reads its settings and its claims on a network of so many zones. The first fault of the file
/// refuses, as `from-base: F`.
pub(crate) fn read_before<O: Outside>(
    alloc: Global,
    name: &str,
    zones: u32,
    outside: &mut O,
) -> Result<BaseFile, Refusal>
    ensures step { BeforeStep O.Src.Source zones name.now (scene O.Outside outside.old)
        (scene O.Outside outside.new) result }
    ensures sound { IfOk result (λ file. IsBaseOn zones file.base) }
{
    match read_base_file(alloc, name, zones, outside) {
        Ok(file) => Ok(file),
        Err(refusal) => Err(renamed(alloc, refusal)),
    }
}

// A fault of a base file as one of the base file of before.
fn renamed(alloc: Global, refusal: Refusal) -> Refusal
    ensures { IsRenamed refusal result }
{
    if !matches!(refusal.status(), Status::Base) {
        return refusal;
    }
    told_from(alloc, refusal.line())
}

// A line of a base file as one of the base file of before.
fn told_from(alloc: Global, line: &[u8]) -> Refusal
    ensures { IsTold Base (codes "from-" ++ line.now) result }
{
    match line_from(alloc, line) {
        Ok(line) => Refusal::Told {
            status: Status::Base,
            line,
        },
        Err(NoMemory) => Refusal::Memory,
    }
}

fn line_from(alloc: Global, line: &[u8]) -> Result<List<u8>, NoMemory>
    ensures { IfOk result (λ told. told ≡ codes "from-" ++ line.now) }
{
    let mut told = Vec::from_slice(alloc, b"from-")?;
    told.extend_from_slice(line)?;
    Ok(List::from_vec(told))
}
