//! Refusals of lists.

ghost use Rattle.std.specs.Prelude.{◌≡◌, ◌++◌, IfOk};
ghost use Rattle.batch_command.specs.Flaws.{needed_line, no_ask_line, stop_line, TellsStop};
ghost use Rattle.batch_command.specs.Flaws.{twice_line};
ghost use Rattle.command_reports.specs.Refusals.{IsTold};
ghost use Rattle.command_reports.specs.declared.exit_status.Status.TheVariants.{ClientEnd, No};

use crate::list_lines::ListFault;
use command_reports::Refusal;
use command_reports::exit_status::Status;
use itoa::Buffer as Digits;
use no_memory::NoMemory;
use rail_types::{List, Name};
use served_clients::bytes::Buffer;
use served_clients::serve_reports::push_end;
use served_clients::sessions::{Ended, Why};
use std::alloc::Global;

/// A line of the list, by its number from 1, does not ask for a path.
pub fn no_ask(alloc: Global, line: u32) -> Refusal
    ensures { IsTold No (no_ask_line line) result }
{
    let mut digits = Digits::new();
    flaw(
        alloc,
        b"line ",
        digits.format(line).as_bytes(),
        b" is no ask\n",
    )
}

/// Two lines of the list have this number.
pub fn number_twice(alloc: Global, number: u64) -> Refusal
    ensures { IsTold No (twice_line number) result }
{
    let mut digits = Digits::new();
    flaw(
        alloc,
        b"number ",
        digits.format(number).as_bytes(),
        b" twice\n",
    )
}

/// A line is that of a worker with this number, of which there are not so many.
pub fn workers_needed(alloc: Global, worker: u32) -> Refusal
    ensures { IsTold No (needed_line worker) result }
{
    let mut digits = Digits::new();
    flaw(
        alloc,
        b"workers needed ",
        digits.format(worker).as_bytes(),
        b"\n",
    )
}

// A refusal of a list, by the parts of its line.
fn flaw(alloc: Global, head: &[u8], middle: &[u8], end: &[u8]) -> Refusal
    ensures { IsTold No (head.now ++ middle.now ++ end.now) result }
{
    match joined(alloc, head, middle, end) {
        Ok(line) => Refusal::Told {
            status: Status::No,
            line: List::from_vec(line.into_vec()),
        },
        Err(NoMemory) => Refusal::Memory,
    }
}

// The parts of a line, together.
fn joined(alloc: Global, head: &[u8], middle: &[u8], end: &[u8]) -> Result<Buffer, NoMemory>
    ensures { IfOk result (λ line. line.held ≡ head.now ++ middle.now ++ end.now) }
{
    let mut line = Buffer::new(alloc);
    line.extend(head)?;
    line.extend(middle)?;
    line.extend(end)?;
    Ok(line)
}

/// A list that was not read: the batch ended before its first reply.
pub fn list_stops(alloc: Global, batch: &Name, fault: ListFault) -> Refusal
    ensures { TellsStop batch.now fault result }
{
    match fault {
        ListFault::ReadFault => stops(alloc, batch, Why::ReadFault),
        ListFault::LongLine => stops(alloc, batch, Why::LongLine),
        ListFault::LineCount => stops(alloc, batch, Why::LineCount),
        ListFault::Memory => Refusal::Memory,
    }
}

// The refusal of a batch that ended before its first reply.
fn stops(alloc: Global, batch: &Name, why: Why) -> Refusal
    ensures { IsTold ClientEnd (stop_line batch.now why) result }
{
    match line_of_stop(alloc, batch, why) {
        Ok(line) => Refusal::Told {
            status: Status::ClientEnd,
            line: List::from_vec(line.into_vec()),
        },
        Err(NoMemory) => Refusal::Memory,
    }
}

// The line of a batch without a reply.
fn line_of_stop(alloc: Global, batch: &Name, why: Why) -> Result<Buffer, NoMemory>
    ensures { IfOk result (λ line. line.held ≡ stop_line batch.now why) }
{
    let mut line = Buffer::new(alloc);
    push_end(&mut line, b"batch ", batch, &Ended { lines: 0, why })?;
    Ok(line)
}
