//! The lines of the report.

ghost use Rattle.std.specs.Prelude.{◌≡◌, ◌++◌, IfOk, OnOk, flat_map};
ghost use Rattle.batch_command.specs.Ends.{report_text, worker_lines};

use crate::batch_server::Worked;
use no_memory::NoMemory;
use rail_types::Name;
use served_clients::admission::Rule;
use served_clients::bytes::Buffer;
use served_clients::serve_reports::{push_end, push_rule_lines};
use served_clients::sessions::{Ended, Why};
use std::alloc::Global;

/// The line of a batch, and behind it the lines of its workers.
pub(crate) fn text_of<L: Rule>(
    alloc: Global,
    batch: &Name,
    written: &Ended,
    worked: &[Worked<L>],
) -> Result<Buffer, NoMemory>
    ensures { IfOk result (λ text.
        text.held ≡ report_text L.Rule batch.now written.now worked.now) }
{
    let mut text = Buffer::new(alloc);
    push_end(&mut text, b"batch ", batch, written)?;
    push_workers(&mut text, worked)?;
    Ok(text)
}

// Appends the lines of all workers.
fn push_workers<L: Rule>(text: &mut Buffer, worked: &[Worked<L>]) -> Result<(), NoMemory>
    ensures { OnOk result (text.new.held
        ≡ text.old.held ++ flat_map (worker_lines L.Rule) worked.now) }
{
    for one in worked {
        push_worker(text, one)?;
    }
    Ok(())
}

// Appends the line of a worker, and behind it one for each of its rules.
fn push_worker<L: Rule>(text: &mut Buffer, worked: &Worked<L>) -> Result<(), NoMemory>
    ensures { OnOk result (text.new.held ≡ text.old.held ++ worker_lines L.Rule worked.now) }
{
    let ended = Ended {
        lines: worked.lines,
        why: Why::Input,
    };
    push_end(text, b"client ", &worked.name, &ended)?;
    push_rule_lines(text, &worked.name, worked.rules.as_slice())?;
    Ok(())
}
