//! The ends of a run's clients.

ghost use Rattle.std.specs.Prelude.{◌≡◌};
ghost use Rattle.command_reports.specs.Scenes.{scene};
ghost use Rattle.served_clients.specs.Ends.{EndsSay, end_status, ends_status, has_faulty};
ghost use Rattle.served_clients.specs.Ends.{has_wanting, IsEnds, is_faulty, is_wanting, line_of};
ghost use Rattle.served_clients.specs.Ends.{status_at, status_unreported, status_untold};

use crate::Session;
use crate::serve_reports::texts::text_of;
use admission_rules::Rule;
use command_reports::exit_status::Status;
use command_reports::file_rounds::write_report;
use line_sessions::Why;
use no_memory::NoMemory;
use outside_io::{Outside, Sink, Source};
use rail_types::List;
use std::alloc::Global;

/// How the clients of a run ended: the status that this comes to, and the text of the report, or
/// None where memory was wanted for it.
#[derive(Debug, Drop)]
pub struct Ends {
    pub status: Status,
    pub text: Option<List<u8>>,
}

/// The ends of these sessions: the status is `ClientEnd` where an end is a fault of a source or a
/// sink, a line that is too long or a line too many; else `Memory` where memory was wanted; else
/// `Done`. The report has a line for each session, and behind it one for each rule of its client.
pub fn ends_of<S: Source, T: Sink, L: Rule>(alloc: Global, sessions: &[Session<S, T, L>]) -> Ends
    ensures ends { IsEnds L.Rule sessions.now result }
{
    let status = status_of(sessions);
    match text_of(alloc, sessions) {
        Ok(text) => Ends {
            status,
            text: Some(List::from_vec(text.into_vec())),
        },
        Err(NoMemory) => Ends {
            status: status_untold(status),
            text: None,
        },
    }
}

/// Reports the ends, and answers the status: `Report` where the report failed, but for `ClientEnd`,
/// which it leaves. Takes no memory.
pub fn tell_ends<O: Outside>(ends: &Ends, outside: &mut O) -> Status
    ensures told { EndsSay O.Snk.Sink ends.now (scene O.Outside outside.old)
        (scene O.Outside outside.new) result }
{
    match write_report(line(ends), outside) {
        Ok(()) => ends.status,
        Err(_) => unreported(ends.status),
    }
}

// The text of the report.
fn line(ends: &Ends) -> &[u8]
    ensures { result.now ≡ line_of ends.now }
{
    match &ends.text {
        Some(text) => text.as_slice(),
        None => b"no memory\n",
    }
}

// What the ends come to.
fn status_of<S: Source, T: Sink, L: Rule>(sessions: &[Session<S, T, L>]) -> Status
    ensures { result ≡ ends_status sessions.now }
{
    end_status(any_faulty(sessions), any_wanting(sessions))
}

/// What one end comes to.
pub fn status_at(why: Why) -> Status
    ensures { result ≡ status_at why }
{
    end_status(faulty(why), wanting(why))
}

// What ends come to, by whether one is faulty, and whether memory was wanted at one.
fn end_status(faulty: bool, wanting: bool) -> Status
    ensures { result ≡ end_status faulty wanting }
{
    if faulty {
        return Status::ClientEnd;
    }
    if wanting {
        return Status::Memory;
    }
    Status::Done
}

fn any_faulty<S: Source, T: Sink, L: Rule>(sessions: &[Session<S, T, L>]) -> bool
    ensures { result ≡ has_faulty sessions.now }
{
    sessions.iter().any(|session| faulty(session.ended.why))
}

fn any_wanting<S: Source, T: Sink, L: Rule>(sessions: &[Session<S, T, L>]) -> bool
    ensures { result ≡ has_wanting sessions.now }
{
    sessions.iter().any(|session| wanting(session.ended.why))
}

fn faulty(why: Why) -> bool
    ensures { result ≡ is_faulty why }
{
    match why {
        Why::Input | Why::Memory => false,
        Why::ReadFault | Why::WriteFault | Why::LongLine | Why::LineCount => true,
    }
}

fn wanting(why: Why) -> bool
    ensures { result ≡ is_wanting why }
{
    why == Why::Memory
}

/// The status where memory was wanted for the report.
pub fn status_untold(status: Status) -> Status
    ensures { result ≡ status_untold status }
{
    match status {
        Status::ClientEnd => Status::ClientEnd,
        _ => Status::Memory,
    }
}

// The status where the report failed.
fn unreported(status: Status) -> Status
    ensures { result ≡ status_unreported status }
{
    match status {
        Status::ClientEnd => Status::ClientEnd,
        _ => Status::Report,
    }
}
