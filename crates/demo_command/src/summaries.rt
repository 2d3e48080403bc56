//! The line that is written.

ghost use Rattle.std.specs.Prelude.{◌≡◌, IfOk};
ghost use Rattle.demo_command.specs.Sessions.{summary};

use itoa::Buffer;
use no_memory::NoMemory;
use std::alloc::Global;

/// What is counted over a session: replies `granted` and `no-path`, and entries.
#[derive(Clone, Copy, Debug, PartialEq, Eq)]
pub(crate) struct Counts {
    pub(crate) granted: usize,
    pub(crate) refused: usize,
    pub(crate) front: u64,
}

/// The line of the demo of a number.
pub(crate) fn summary_of(alloc: Global, number: u32, counts: &Counts) -> Result<Vec<u8>, NoMemory>
    ensures { IfOk result (λ line. line.items
        ≡ summary number counts.now.granted counts.now.refused counts.now.front) }
{
    let mut digits = Buffer::new();
    let mut line = Vec::from_slice(alloc, b"demo ")?;
    line.extend_from_slice(digits.format(number).as_bytes())?;
    line.extend_from_slice(b" asked 1000 granted ")?;
    line.extend_from_slice(digits.format(counts.granted).as_bytes())?;
    line.extend_from_slice(b" refused ")?;
    line.extend_from_slice(digits.format(counts.refused).as_bytes())?;
    line.extend_from_slice(b" front ")?;
    line.extend_from_slice(digits.format(counts.front).as_bytes())?;
    line.extend_from_slice(b"\n")?;
    Ok(line)
}
