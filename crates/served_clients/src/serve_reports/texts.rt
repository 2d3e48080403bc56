//! The lines of a report.

ghost use Rattle.std.specs.Prelude.{◌≡◌, ◌++◌, IfOk, OnOk};
ghost use Rattle.served_clients.specs.Ends.{end_line, report_text, why_text as text_of_why};

use crate::Session;
use crate::serve_reports::rules::push_rule_lines;
use admission_rules::Rule;
use itoa::Buffer as Digits;
use line_answers::bytes::Buffer;
use line_sessions::{Ended, Why};
use no_memory::NoMemory;
use outside_io::{Sink, Source};
use rail_types::Name;
use std::alloc::Global;

/// A line for each session, and behind it one for each rule of its client.
pub(crate) fn text_of<S: Source, T: Sink, L: Rule>(
    alloc: Global,
    sessions: &[Session<S, T, L>],
) -> Result<Buffer, NoMemory>
    ensures { IfOk result (λ text. text.held ≡ report_text L.Rule sessions.now) }
{
    let mut text = Buffer::new(alloc);
    for session in sessions {
        push_end(&mut text, b"client ", &session.name, &session.ended)?;
        push_rule_lines(&mut text, &session.name, session.rules.as_slice())?;
    }
    Ok(text)
}

/// Appends the line of an end: a head, the name of what ended, how many of its replies were taken,
/// and why it ended. For want of memory a part of it may be there.
pub fn push_end(text: &mut Buffer, head: &[u8], name: &Name, ended: &Ended) -> Result<(), NoMemory>
    ensures { OnOk result
        (text.new.held ≡ text.old.held ++ end_line head.now name.now ended.now) }
{
    let mut digits = Digits::new();
    text.extend(head)?;
    text.extend(name.as_bytes())?;
    text.extend(b" lines ")?;
    text.extend(digits.format(ended.lines).as_bytes())?;
    text.extend(b" end ")?;
    text.extend(why_text(ended.why))?;
    text.extend(b"\n")?;
    Ok(())
}

/// Why a session ended, in words.
pub fn why_text(why: Why) -> &'static [u8]
    ensures { result.now ≡ text_of_why why }
{
    match why {
        Why::Input => b"input",
        Why::ReadFault => b"read-fault",
        Why::WriteFault => b"write-fault",
        Why::LongLine => b"long-line",
        Why::LineCount => b"line-count",
        Why::Memory => b"memory",
    }
}
