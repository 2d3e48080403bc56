//! The session of the demo.

ghost use Rattle.std.specs.Prelude.{◌≡◌, ◌∷◌, [], IfErr, IfOk};
ghost use Rattle.served_clients.specs.sessions.declared.sessions.Why.TheVariants.{Input};
ghost use Rattle.demo_command.specs.Counts.{AreHeld, IsCount, IsCounted, IsDemoPlan, IsOnePlan};
ghost use Rattle.demo_command.specs.Sessions.{demo_names, IsDemo};

use crate::counts::lines_with;
use crate::journals::{ROOM, empty_book};
use crate::lines::{LINES, lines_of};
use crate::railways::railway;
use crate::summaries::{Counts, summary_of};
use crate::trains::trains;
use admission_rules::Quota;
use client_lines::Known;
use command_reports::Refusal;
use no_memory::NoMemory;
use outside_io::{MemSink, MemSource, NoBetween};
use rail_types::Name;
use request_server::serve_clients;
use served_clients::sessions::{Proofs, Why};
use served_clients::{Plan, Session};
use std::alloc::{AllocGlobal, Global};
use std::sync::Wait;
use std::thread::Threads;

/// The line of the demo of a number.
pub(crate) fn line_of<R: AllocGlobal + Threads + Wait + Sync>(
    rt: &R,
    number: u32,
) -> Result<Vec<u8>, Refusal>
    ensures line { IfOk result (λ line. IsDemo number line.items) }
    ensures memory { IfErr result (λ refusal. refusal ≡ Refusal.Memory) }
{
    match try_line(rt, number) {
        Ok(line) => Ok(line),
        Err(NoMemory) => Err(Refusal::Memory),
    }
}

fn try_line<R: AllocGlobal + Threads + Wait + Sync>(
    rt: &R,
    number: u32,
) -> Result<Vec<u8>, NoMemory>
    ensures { IfOk result (λ line. IsDemo number line.items) }
{
    let counts = hold_session(rt, number)?;
    let line = summary_of(rt.alloc(), number, &counts)?;
    Ok(line)
}

// Serves the one client, and counts its replies and the entries that are left.
fn hold_session<R: AllocGlobal + Threads + Wait + Sync>(
    rt: &R,
    number: u32,
) -> Result<Counts, NoMemory>
    ensures { IfOk result (AreHeld number) }
{
    let alloc = rt.alloc();
    let plans = one_plan(alloc, number)?;
    let known = known(alloc)?;
    let book = empty_book(alloc, &known.railway().network)?;
    match serve_clients(rt, alloc, book, known, plans) {
        Ok((book, sessions)) => {
            let front = book.front();
            let _disk = book.close();
            let counts = counts_of(&sessions, front)?;
            Ok(counts)
        }
        Err((book, _plans, NoMemory)) => {
            let _disk = book.close();
            Err(NoMemory)
        }
    }
}

// What lines may name.
fn known(alloc: Global) -> Result<Known, NoMemory>
    ensures { IfOk result (λ known. known ≡ demo_names) }
{
    let railway = railway(alloc)?;
    let trains = trains(alloc)?;
    let known = Known::new(alloc, railway, trains)?;
    Ok(known)
}

fn one_plan(
    alloc: Global,
    number: u32,
) -> Result<Vec<Plan<MemSource, MemSink, NoBetween, Quota>>, NoMemory>
    ensures { IfOk result (λ plans. IsOnePlan number plans.items) }
{
    let plan = plan(alloc, number)?;
    let mut plans = Vec::new(alloc);
    plans.push(plan)?;
    Ok(plans)
}

// The one client, whose lines come out of memory, and whose replies go there. It wants
// no proofs, and has no rules.
fn plan(alloc: Global, number: u32) -> Result<Plan<MemSource, MemSink, NoBetween, Quota>, NoMemory>
    ensures { IfOk result (IsDemoPlan number) }
{
    let lines = lines_of(alloc, number)?;
    Ok(Plan {
        name: Name::from_bytes(alloc, b"A")?,
        source: MemSource::new(lines, Vec::new(alloc)),
        sink: MemSink::new(alloc, ROOM, Vec::new(alloc))?,
        proofs: Proofs::Unwanted,
        between: NoBetween,
        rules: Vec::new(alloc),
    })
}

// What is counted over the one session.
fn counts_of(
    sessions: &[Session<MemSource, MemSink, Quota>],
    front: u64,
) -> Result<Counts, NoMemory>
    ensures { IfOk result (IsCounted sessions.now front) }
{
    let [session] = sessions else {
        return Err(NoMemory);
    };
    let counts = counted(session, front)?;
    Ok(counts)
}

// No call of the streams or the disk is listed to fail, and there is room for all replies
// and entries: a session that ended before its input did, or in which a line was told
// anything else, wanted memory.
fn counted(session: &Session<MemSource, MemSink, Quota>, front: u64) -> Result<Counts, NoMemory>
    ensures why { IfOk result (λ counts. session.now.ended.why ≡ Input) }
    ensures counted { IfOk result (λ counts. IsCount session.now.sink.held front counts) }
{
    let replies = session.sink.bytes();
    let granted = lines_with(b"granted ", replies);
    let refused = lines_with(b"no-path ", replies);
    if session.ended.why != Why::Input || granted.saturating_add(refused) != LINES as usize {
        return Err(NoMemory);
    }
    Ok(Counts {
        granted,
        refused,
        front,
    })
}
