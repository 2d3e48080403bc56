//! Why a proof does not hold.

ghost use Rattle.std.specs.Prelude.{◌≡◌, ◌++◌, decimal, IfOk};
ghost use Rattle.command_reports.specs.declared.exit_status.Status.TheVariants.{No};
ghost use Rattle.command_reports.specs.Refusals.{IsTold, line_with};
ghost use Rattle.check_command.specs.Checks.{done_line, doubt_line};
ghost use Rattle.check_command.specs.Doubts.{IsReported, why_text as text_of};

use command_reports::Refusal;
use command_reports::exit_status::Status;
use itoa::Buffer;
use no_memory::NoMemory;
use rail_types::List;
use std::alloc::{AllocError, AllocFailed, Global};
use thiserror::Error;

/// Why a proof does not hold.
#[derive(Clone, Copy, Debug, PartialEq, Eq, Error)]
pub(crate) enum Why {
    // There is no proof, or its front is not one that the history had.
    #[error("not understood")]
    NotUnderstood,
    // Its request has too many places.
    #[error("wide")]
    Wide,
    // Its members do not show that no path could be granted.
    #[error("fails")]
    Fails,
    // Memory was wanted.
    #[error("no memory")]
    Memory,
}

impl From<NoMemory> for Why {
    ghost use Rattle.std.specs.Prelude.{◌≡◌};
    ghost use Rattle.check_command.specs.declared.doubts.Why.TheVariants.{Memory};

    ghost from_gives = { λ _ why. why ≡ Memory };

    fn from(_refused: NoMemory) -> Why {
        Why::Memory
    }
}

/// The first proof that does not hold, by its position from 0, and why.
#[derive(Clone, Copy, Debug, PartialEq, Eq)]
pub(crate) struct Doubt {
    pub(crate) position: u64,
    pub(crate) why: Why,
}

// What is reported of a doubt behind the proof's position.
fn why_text(why: Why) -> &'static [u8]
    ensures { result.now ≡ text_of why }
{
    match why {
        Why::NotUnderstood => b" not understood",
        Why::Wide => b" wide",
        Why::Fails => b" fails",
        Why::Memory => b"",
    }
}

// A number, and what stands behind it.
fn number_text(alloc: Global, number: u64, behind: &[u8]) -> Result<Vec<u8>, NoMemory>
    ensures { IfOk result (λ text. text.items ≡ decimal number ++ behind.now) }
{
    let mut digits = Buffer::new();
    let mut text = Vec::from_slice(alloc, digits.format(number).as_bytes())?;
    text.extend_from_slice(behind)?;
    Ok(text)
}

// The line of the proof at a position.
fn doubt_told(alloc: Global, position: u64, why: &[u8]) -> Refusal
    ensures { IsTold No (doubt_line position why.now) result }
{
    match number_text(alloc, position, why) {
        Ok(text) => Refusal::with(alloc, Status::No, b"proof ", text.as_slice()),
        Err(NoMemory) => Refusal::Memory,
    }
}

/// What is reported of a doubt.
pub(crate) fn refusal_of(alloc: Global, doubt: Doubt) -> Refusal
    ensures { IsReported doubt result }
{
    if matches!(doubt.why, Why::Memory) {
        return Refusal::Memory;
    }
    doubt_told(alloc, doubt.position, why_text(doubt.why))
}

/// The line that is reported where all of so many proofs hold.
pub(crate) fn done_told(alloc: Global, count: u64) -> Result<List<u8>, NoMemory>
    ensures { IfOk result (λ line. line ≡ done_line count) }
{
    let mut digits = Buffer::new();
    let mut line = Vec::from_slice(alloc, b"proofs ")?;
    line.extend_from_slice(digits.format(count).as_bytes())?;
    line.push(b'\n')?;
    Ok(List::from_vec(line))
}
