//! The base file.

ghost use Rattle.std.specs.Prelude.{◌≡◌, IfOk};
ghost use Rattle.base_file.specs.Sound.{IsBaseOn};
ghost use Rattle.command_files.specs.Files.{BaseSays, BaseStep, TellsBase};
ghost use Rattle.command_reports.specs.Scenes.{scene};

use crate::files::{FileKind, bytes_of};
use base_file::{BaseFault, read_base};
use command_reports::Refusal;
use no_memory::NoMemory;
use outside_io::Outside;
use rail_types::Base;
use sha2::{Digest, Sha256};
use std::alloc::Global;

/// What a base file tells: the settings and the claims of planned trains, and the
/// SHA-256 digest of the file's bytes.
#[derive(Debug, Drop)]
pub struct BaseFile {
    pub base: Base,
    pub digest: [u8; 32],
}

/// Opens a base file, reads it as a whole, puts it back, and reads its settings and its claims on a
/// network of so many zones. The first fault of the file refuses, as `base: F`.
pub fn read_base_file<O: Outside>(
    alloc: Global,
    name: &str,
    zones: u32,
    outside: &mut O,
) -> Result<BaseFile, Refusal>
    ensures step { BaseStep O.Src.Source zones name.now (scene O.Outside outside.old)
        (scene O.Outside outside.new) result }
    ensures sound { IfOk result (λ file. IsBaseOn zones file.base) }
{
    let bytes = bytes_of(alloc, FileKind::Base, name, outside)?;
    let base = base_of_bytes(alloc, &bytes, zones)?;
    Ok(BaseFile {
        base,
        digest: Sha256::digest(bytes.as_slice()),
    })
}

// The base timetable that a file's bytes tell.
fn base_of_bytes(alloc: Global, bytes: &[u8], zones: u32) -> Result<Base, Refusal>
    ensures says { BaseSays zones bytes.now result }
    ensures sound { IfOk result (IsBaseOn zones) }
{
    match read_base(alloc, bytes, zones) {
        Ok(base) => Ok(base),
        Err(fault) => Err(base_refused(alloc, fault)),
    }
}

// A fault by its text, and the fault let go.
fn base_refused(alloc: Global, fault: BaseFault) -> Refusal
    ensures { TellsBase fault result }
{
    base_refusal(alloc, &fault)
}

// A fault by its text.
fn base_refusal(alloc: Global, fault: &BaseFault) -> Refusal
    ensures { TellsBase fault.now result }
{
    if matches!(fault, BaseFault::Memory) {
        return Refusal::Memory;
    }
    match base_file::fault_text(alloc, fault) {
        Ok(text) => FileKind::Base.refusal(alloc, text.as_slice()),
        Err(NoMemory) => Refusal::Memory,
    }
}
