//! The words of lines, each answered in one turn.
ghost use Rattle.std.specs.Prelude.{◌≡◌, ◌+◌, ◌⊎◌, ◌≤◌};
ghost use Rattle.book_gate.specs.Passes.{turns_left, view};
ghost use Rattle.client_lines.specs.Within.{IsAskWithin};
ghost use Rattle.client_lines.specs.declared.asks.Ask.TheVariants.{Hold as hold_of, Pin as pin_of};
ghost use Rattle.client_lines.specs.declared.asks.Ask.TheVariants.{Free as free_of};
ghost use Rattle.client_lines.specs.declared.asks.Ask.TheVariants.{Show as show_of};
ghost use Rattle.client_lines.specs.declared.asks.Ask.TheVariants.{Front as front_of};
ghost use Rattle.rail_types.specs.Limits.{IsClientName};
ghost use Rattle.client_lines.specs.Rooms.{IsBehindEntry};
ghost use Rattle.ask_turns.specs.Clients.{Knows};
ghost use Rattle.ask_turns.specs.Turns.{IsReady, timetable_at};
ghost use Rattle.line_answers.specs.Callers.{AnswersAllowed};
ghost use Rattle.line_answers.specs.Tells.{AddsNothing};

use crate::entries::entry_of;
use crate::lines::Sent;
use crate::replies::{free_refused, halted, hold_refused, pin_refused};
use ask_turns::Shared;
use ask_turns::client_turns::{Client, Entered, Judged, enter_entry, look, show};
use book_gate::Pass;
use client_lines::reply_texts::Reply;
use outside_io::Disk;
use path_commit::Book;
use rail_types::{Claims, Deed, Name, Path, Wanted};
use std::alloc::Global;
use std::sync::Wait;

// Holds claims for a reason.
#[inline(always)]
pub(crate) fn hold<R: Wait, D: Disk>(
    rt: &R,
    alloc: Global,
    shared: &Shared<D>,
    pass: &mut Pass<Book<D>>,
    client: &Client,
    sent: Sent,
    claims: Claims,
    reason: Name,
) -> Reply
    requires ready { IsReady shared.now.gate pass.old }
    requires budget { 1 ≤ turns_left pass.old }
    requires knows { Knows (timetable_at shared.now.gate) client.now (view pass.old).seen }
    requires name { IsClientName client.now.name }
    requires within { IsAskWithin (timetable_at shared.now.gate).net
        (hold_of sent.number claims reason) }
    ensures ready { IsReady shared.now.gate pass.new }
    ensures budget { turns_left pass.old ≤ turns_left pass.new + 1 }
    ensures knows { Knows (timetable_at shared.now.gate) client.now (view pass.new).seen }
    ensures answers { AnswersAllowed shared.now client.now.name sent.line
        (record { after = sent.after; ask = hold_of sent.number claims reason }) result
        (view pass.old) (view pass.new) }
    ensures short { IsBehindEntry 0 result ⊎ AddsNothing result }
{
    let Sent {
        line,
        after,
        number,
    } = sent;
    let Ok(entry) = entry_of(alloc, client, line, number, Deed::Hold(claims, reason)) else {
        return Reply::NoMemory;
    };
    match enter_entry(rt, alloc, &shared.gate, pass, after, entry) {
        Ok(judged) => {
            let Judged { entered, found } = judged;
            match entered {
                Entered::Settled { at, front } => Reply::Held {
                    number,
                    entry: at,
                    front,
                },
                Entered::Unsettled { at, front } => Reply::Unsettled {
                    number,
                    entry: at,
                    front,
                },
                Entered::Refused(told) => hold_refused(number, told, found),
                Entered::Full => Reply::Full {
                    number,
                    front: found,
                },
            }
        }
        Err(halt) => halted(halt),
    }
}

// Takes a path that the client gives.
pub(crate) fn pin<R: Wait, D: Disk>(
    rt: &R,
    alloc: Global,
    shared: &Shared<D>,
    pass: &mut Pass<Book<D>>,
    client: &Client,
    sent: Sent,
    path: Path,
) -> Reply
    requires ready { IsReady shared.now.gate pass.old }
    requires budget { 1 ≤ turns_left pass.old }
    requires knows { Knows (timetable_at shared.now.gate) client.now (view pass.old).seen }
    requires name { IsClientName client.now.name }
    requires within { IsAskWithin (timetable_at shared.now.gate).net (pin_of sent.number path) }
    ensures ready { IsReady shared.now.gate pass.new }
    ensures budget { turns_left pass.old ≤ turns_left pass.new + 1 }
    ensures knows { Knows (timetable_at shared.now.gate) client.now (view pass.new).seen }
    ensures answers { AnswersAllowed shared.now client.now.name sent.line
        (record { after = sent.after; ask = pin_of sent.number path }) result
        (view pass.old) (view pass.new) }
    ensures short { IsBehindEntry 0 result ⊎ AddsNothing result }
{
    let Sent {
        line,
        after,
        number,
    } = sent;
    let Ok(entry) = entry_of(
        alloc,
        client,
        line,
        number,
        Deed::Grant(Wanted::Pinned, path),
    ) else {
        return Reply::NoMemory;
    };
    match enter_entry(rt, alloc, &shared.gate, pass, after, entry) {
        Ok(judged) => {
            let Judged { entered, found } = judged;
            match entered {
                Entered::Settled { at, front } => Reply::Pinned {
                    number,
                    entry: at,
                    front,
                },
                Entered::Unsettled { at, front } => Reply::Unsettled {
                    number,
                    entry: at,
                    front,
                },
                Entered::Refused(told) => pin_refused(number, told, found),
                Entered::Full => Reply::Full {
                    number,
                    front: found,
                },
            }
        }
        Err(halt) => halted(halt),
    }
}

// Frees an entry.
pub(crate) fn free<R: Wait, D: Disk>(
    rt: &R,
    alloc: Global,
    shared: &Shared<D>,
    pass: &mut Pass<Book<D>>,
    client: &Client,
    sent: Sent,
    freed: u64,
) -> Reply
    requires ready { IsReady shared.now.gate pass.old }
    requires budget { 1 ≤ turns_left pass.old }
    requires knows { Knows (timetable_at shared.now.gate) client.now (view pass.old).seen }
    requires name { IsClientName client.now.name }
    requires within { IsAskWithin (timetable_at shared.now.gate).net (free_of sent.number freed) }
    ensures ready { IsReady shared.now.gate pass.new }
    ensures budget { turns_left pass.old ≤ turns_left pass.new + 1 }
    ensures knows { Knows (timetable_at shared.now.gate) client.now (view pass.new).seen }
    ensures answers { AnswersAllowed shared.now client.now.name sent.line
        (record { after = sent.after; ask = free_of sent.number freed }) result
        (view pass.old) (view pass.new) }
    ensures short { IsBehindEntry 0 result ⊎ AddsNothing result }
{
    let Sent {
        line,
        after,
        number,
    } = sent;
    let Ok(entry) = entry_of(alloc, client, line, number, Deed::Free(freed)) else {
        return Reply::NoMemory;
    };
    match enter_entry(rt, alloc, &shared.gate, pass, after, entry) {
        Ok(judged) => {
            let Judged { entered, found } = judged;
            match entered {
                Entered::Settled { at, front } => Reply::Freed {
                    number,
                    entry: at,
                    freed,
                    front,
                },
                Entered::Unsettled { at, front } => Reply::Unsettled {
                    number,
                    entry: at,
                    front,
                },
                Entered::Refused(told) => free_refused(number, freed, told, found),
                Entered::Full => Reply::Full {
                    number,
                    front: found,
                },
            }
        }
        Err(halt) => halted(halt),
    }
}

// Shows the entry at a position.
pub(crate) fn show_entry<R: Wait, D: Disk>(
    rt: &R,
    alloc: Global,
    shared: &Shared<D>,
    pass: &mut Pass<Book<D>>,
    client: &mut Client,
    line_number: u32,
    after: Option<u64>,
    at: u64,
) -> Reply
    requires ready { IsReady shared.now.gate pass.old }
    requires budget { 1 ≤ turns_left pass.old }
    requires knows { Knows (timetable_at shared.now.gate) client.old (view pass.old).seen }
    requires name { IsClientName client.old.name }
    requires within { IsAskWithin (timetable_at shared.now.gate).net (show_of at) }
    ensures ready { IsReady shared.now.gate pass.new }
    ensures budget { turns_left pass.old ≤ turns_left pass.new + 1 }
    ensures name { client.new.name ≡ client.old.name }
    ensures knows { Knows (timetable_at shared.now.gate) client.new (view pass.new).seen }
    ensures answers { AnswersAllowed shared.now client.old.name line_number
        (record { after = after; ask = show_of at }) result
        (view pass.old) (view pass.new) }
    ensures short { IsBehindEntry 0 result ⊎ AddsNothing result }
{
    match show(rt, alloc, &shared.gate, pass, client, after, at) {
        Ok(Some(standing)) => Reply::Shown {
            at,
            front: client.front(),
            entry: standing.entry,
            freed_by: standing.freed_by,
        },
        Ok(None) => Reply::Unknown {
            entry: at,
            front: client.front(),
        },
        Err(halt) => halted(halt),
    }
}

// Tells the front.
pub(crate) fn front<R: Wait, D: Disk>(
    rt: &R,
    shared: &Shared<D>,
    pass: &mut Pass<Book<D>>,
    client: &mut Client,
    line_number: u32,
    after: Option<u64>,
) -> Reply
    requires ready { IsReady shared.now.gate pass.old }
    requires budget { 1 ≤ turns_left pass.old }
    requires knows { Knows (timetable_at shared.now.gate) client.old (view pass.old).seen }
    requires name { IsClientName client.old.name }
    requires within { IsAskWithin (timetable_at shared.now.gate).net (front_of) }
    ensures ready { IsReady shared.now.gate pass.new }
    ensures budget { turns_left pass.old ≤ turns_left pass.new + 1 }
    ensures name { client.new.name ≡ client.old.name }
    ensures knows { Knows (timetable_at shared.now.gate) client.new (view pass.new).seen }
    ensures answers { AnswersAllowed shared.now client.old.name line_number
        (record { after = after; ask = front_of }) result
        (view pass.old) (view pass.new) }
    ensures short { IsBehindEntry 0 result ⊎ AddsNothing result }
{
    match look(rt, &shared.gate, pass, client, after) {
        Ok(()) => Reply::Front {
            front: client.front(),
        },
        Err(halt) => halted(halt),
    }
}
