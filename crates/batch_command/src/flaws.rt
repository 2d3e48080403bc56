//! Lists that are refused before a line is answered.

ghost use Rattle.std.specs.Prelude.{◌≤◌, All, IfErr, IfOk, length};
ghost use Rattle.batch_command.specs.Asked.{HasFlaw, IsAsked};
ghost use Rattle.command_line.specs.declared.batch_words.clients.TheConstants.{
  MAX_BATCH_NAME_BYTES,
};
ghost use Rattle.command_line.specs.declared.batch_words.clients.TheConstants.{MAX_WORKERS};
ghost use Rattle.served_clients.specs.lines.declared.lines.TheConstants.{MAX_LINE_BYTES};
ghost use Rattle.served_clients.specs.sessions.declared.sessions.TheConstants.{MAX_LINES};

use crate::batch_reports::{no_ask, number_twice, workers_needed};
use crate::list_lines::{first_no_ask, first_twice, numbers_of};
use crate::worker_numbers::needed_worker;
use command_reports::Refusal;
use no_memory::NoMemory;
use rail_types::Name;
use served_clients::history::History;
use served_clients::lines::Known;
use std::alloc::Global;

/// The numbers of the lines of a list, each of which asks for a path: they differ, and
/// none stands in the history under the name of a worker that is not there. A flaw
/// refuses, the first that applies.
pub(crate) fn numbers_asked(
    alloc: Global,
    known: &Known,
    batch: &Name,
    workers: u32,
    history: &History,
    lines: &[Name],
) -> Result<Vec<Option<u64>>, Refusal>
    requires name { length batch.now ≤ MAX_BATCH_NAME_BYTES }
    requires few { workers ≤ MAX_WORKERS }
    requires count { length lines.now ≤ MAX_LINES }
    requires texts { All (λ line. length line ≤ MAX_LINE_BYTES) lines.now }
    ensures asked { IfOk result (λ numbers. IsAsked known.now batch.now workers
        history.now.entries lines.now numbers.items) }
    ensures flaw { IfErr result (HasFlaw known.now batch.now workers
        history.now.entries lines.now) }
{
    if let Some(line) = first_no_ask(lines) {
        return Err(no_ask(alloc, line));
    }
    let Ok(numbers) = numbers_of(alloc, lines, known) else {
        return Err(Refusal::Memory);
    };
    match first_twice(alloc, &numbers) {
        Ok(None) => {}
        Ok(Some(number)) => return Err(number_twice(alloc, number)),
        Err(NoMemory) => return Err(Refusal::Memory),
    }
    match needed_worker(alloc, history, batch, workers, &numbers) {
        Ok(None) => Ok(numbers),
        Ok(Some(worker)) => Err(workers_needed(alloc, worker)),
        Err(NoMemory) => Err(Refusal::Memory),
    }
}
