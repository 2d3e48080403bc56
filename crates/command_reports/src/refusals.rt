//! Why a command goes no further.

ghost use Rattle.std.specs.Prelude.{◌≡◌, IfOk, codes};
ghost use Rattle.command_reports.specs.declared.exit_status.Status.TheVariants.{DiskFault, Opening};
ghost use Rattle.command_reports.specs.Refusals.{IsTold, line_of, line_with, status_of};

use crate::exit_status::Status;
use no_memory::NoMemory;
use rail_types::List;
use std::alloc::Global;

/// Why a command goes no further.
#[derive(Debug, Drop)]
pub enum Refusal {
    /// With this status, and this line of the report, which ends with byte 10.
    Told { status: Status, line: List<u8> },
    /// Memory was wanted.
    Memory,
}

impl Refusal {
    /// A refusal whose line is a head and a rest; where there is no memory for the line, `Memory`.
    pub fn with(alloc: Global, status: Status, head: &[u8], rest: &[u8]) -> Refusal
        ensures { IsTold status (line_with head.now rest.now) result }
    {
        match line(alloc, head, rest) {
            Ok(line) => Refusal::Told { status, line },
            Err(NoMemory) => Refusal::Memory,
        }
    }

    /// Its status.
    pub fn status(&self) -> Status
        ensures { result ≡ status_of self.now }
    {
        match self {
            Refusal::Told { status, .. } => *status,
            Refusal::Memory => Status::Memory,
        }
    }

    /// The line of its report, with the byte that ends it.
    pub fn line(&self) -> &[u8]
        ensures { result.now ≡ line_of self.now }
    {
        match self {
            Refusal::Told { line, .. } => line.as_slice(),
            Refusal::Memory => b"no memory\n",
        }
    }
}

/// A name could not be opened.
pub fn not_opened(alloc: Global, name: &str) -> Refusal
    ensures { IsTold Opening (line_with (codes "open: ") name.now) result }
{
    Refusal::with(alloc, Status::Opening, b"open: ", name.as_bytes())
}

/// What stands under a name could not be read.
pub fn not_read(alloc: Global, name: &str) -> Refusal
    ensures { IsTold Opening (line_with (codes "read: ") name.now) result }
{
    Refusal::with(alloc, Status::Opening, b"read: ", name.as_bytes())
}

/// The disk under a name failed.
pub fn disk_failed(alloc: Global, name: &str) -> Refusal
    ensures { IsTold DiskFault (line_with (codes "disk: ") name.now) result }
{
    Refusal::with(alloc, Status::DiskFault, b"disk: ", name.as_bytes())
}

// A head, a rest and the end of the line.
fn line(alloc: Global, head: &[u8], rest: &[u8]) -> Result<List<u8>, NoMemory>
    ensures { IfOk result (λ line. line ≡ line_with head.now rest.now) }
{
    let mut line = Vec::from_slice(alloc, head)?;
    line.extend_from_slice(rest)?;
    line.push(b'\n')?;
    Ok(List::from_vec(line))
}
