//! The lines of entries that are left out, and of the report.

ghost use Rattle.std.specs.Prelude.{◌≡◌, ◌++◌, ◌<◌, All, codes, IfOk, length, OnOk, Some};
ghost use Rattle.std.specs.Prelude.{slice_get};
ghost use Rattle.command_reports.specs.declared.exit_status.Status.TheVariants.{No};
ghost use Rattle.command_reports.specs.Refusals.{IsTold};
ghost use Rattle.carry_command.specs.Lines.{carried_line, entry_text, entry_text_at, left_line};
ghost use Rattle.carry_command.specs.Lines.{left_lines, reason_text, said};

use crate::carried_history::{LeftOut, Reason};
use byte_fields::Buffer;
use command_reports::Refusal;
use command_reports::exit_status::Status;
use itoa::Buffer as Digits;
use json_fields::name_text::push_escaped;
use no_memory::NoMemory;
use path_recover::history::History;
use rail_types::{Entry, List};
use std::alloc::Global;

// Puts words and a number behind a text.
fn push_said(words: &[u8], number: u64, to: &mut Buffer) -> Result<(), NoMemory>
    ensures { OnOk result (to.new.held ≡ to.old.held ++ said words.now number) }
{
    let mut digits = Digits::new();
    to.extend(words)?;
    to.extend(digits.format(number).as_bytes())?;
    Ok(())
}

// Puts two numbers, each behind words, behind a text.
fn push_both(
    words: &[u8],
    number: u64,
    others: &[u8],
    other: u64,
    to: &mut Buffer,
) -> Result<(), NoMemory>
    ensures { OnOk result (to.new.held
        ≡ to.old.held ++ (said words.now number ++ said others.now other)) }
{
    push_said(words, number, to)?;
    push_said(others, other, to)?;
    Ok(())
}

// Puts why an entry is left out behind a text.
fn push_reason(reason: &Reason, to: &mut Buffer) -> Result<(), NoMemory>
    ensures { OnOk result (to.new.held ≡ to.old.held ++ reason_text reason.now) }
{
    match reason {
        Reason::ByBase { zone, train } => push_both(
            b" taken zone ",
            u64::from(*zone),
            b" by base ",
            u64::from(*train),
            to,
        ),
        Reason::ByEntry { zone, entry } => {
            push_both(b" taken zone ", u64::from(*zone), b" by entry ", *entry, to)
        }
        Reason::Breaks(broken) => push_both(
            b" breaks run ",
            u64::from(broken.run),
            b" rule ",
            u64::from(broken.rule),
            to,
        ),
    }
}

// Puts an entry, and why it is left out, behind a text.
fn push_entry(at: u64, entry: &Entry, reason: &Reason, to: &mut Buffer) -> Result<(), NoMemory>
    ensures { OnOk result (to.new.held ≡ to.old.held ++ entry_text at entry.now reason.now) }
{
    push_said(b"", at, to)?;
    to.extend(b" owner ")?;
    push_escaped(entry.owner.as_bytes(), to)?;
    push_said(b" number ", entry.number, to)?;
    push_reason(reason, to)?;
    Ok(())
}

// Puts the entry that is left out, and why, behind a text.
fn push_one(old: &History, one: &LeftOut, to: &mut Buffer) -> Result<(), NoMemory>
    requires within { one.now.at < length old.now.entries }
    ensures { OnOk result (to.new.held ≡ to.old.held
        ++ entry_text_at one.now.at (slice_get old.now.entries one.now.at) one.now.reason) }
{
    let Some(entry) = old.entry(one.at) else {
        unreachable!()
    };
    push_entry(one.at, entry, &one.reason, to)
}

// Puts the line of an entry that is left out behind a text.
fn push_line(old: &History, one: &LeftOut, to: &mut Buffer) -> Result<(), NoMemory>
    requires within { one.now.at < length old.now.entries }
    ensures { OnOk result (to.new.held ≡ to.old.held ++ left_line old.now.entries one.now) }
{
    to.extend(b"entry ")?;
    push_one(old, one, to)?;
    to.extend(b"\n")?;
    Ok(())
}

/// The lines of the entries that are left out, in their order.
pub(crate) fn lines_of(alloc: Global, old: &History, left: &[LeftOut]) -> Result<List<u8>, NoMemory>
    requires within { All (λ one. one.at < length old.now.entries) left.now }
    ensures { IfOk result (λ lines. lines ≡ left_lines old.now.entries left.now) }
{
    let mut lines = Buffer::new(alloc);
    for one in left {
        push_line(old, one, &mut lines)?;
    }
    Ok(List::from_vec(lines.into_vec()))
}

/// The first entry that is left out, where none may be.
pub(crate) fn left_refusal(alloc: Global, old: &History, one: &LeftOut) -> Refusal
    requires within { one.now.at < length old.now.entries }
    ensures { IsTold No (left_line old.now.entries one.now) result }
{
    let mut text = Buffer::new(alloc);
    match push_one(old, one, &mut text) {
        Ok(()) => Refusal::with(alloc, Status::No, b"entry ", text.as_slice()),
        Err(NoMemory) => Refusal::Memory,
    }
}

/// The line that is reported: how many entries were carried, and how many left out.
pub(crate) fn told_of(alloc: Global, carried: u64, left: u64) -> Result<List<u8>, NoMemory>
    ensures { IfOk result (λ line. line ≡ carried_line carried left) }
{
    let mut line = Buffer::new(alloc);
    push_both(b"carried ", carried, b" left ", left, &mut line)?;
    line.extend(b"\n")?;
    Ok(List::from_vec(line.into_vec()))
}
