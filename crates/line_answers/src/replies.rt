//! Replies by what a turn told.
ghost use Rattle.std.specs.Prelude.{◌≡◌, ◌≤◌, ◌⊎◌};
ghost use Rattle.ask_turns.specs.Finds.{HasRoomFor, HasRoomOf};
ghost use Rattle.ask_turns.specs.Tries.{IsOfNumber, IsRefusedByNumber};
ghost use Rattle.byte_fields.specs.Buffered.{Buffered};
ghost use Rattle.client_lines.specs.Rooms.{room_for};
ghost use Rattle.line_answers.specs.Asked.{HasRoomIn, IsOutcomeTold, TellsAsk, TellsPath};
ghost use Rattle.line_answers.specs.Proved.{kept_text};
ghost use Rattle.line_answers.specs.Tells.{AddsNothing, IsFreeTold, IsHoldTold, IsPinTold};
ghost use Rattle.line_answers.specs.Tells.{TellsAgain, TellsFree, TellsHold, TellsPin, fault_reply};
ghost use Rattle.line_answers.specs.Tells.{halt_reply};

use ask_turns::Outcome;
use ask_turns::client_turns::{Entered, Halt, Refusal};
use ask_turns::history::Verdict;
use byte_fields::Buffer;
use client_lines::LineFault;
use client_lines::reply_texts::Reply;
use rail_types::{List, Run};

// What a line is told that was not read.
pub(crate) fn unread(fault: LineFault) -> Reply
    ensures { result ≡ fault_reply fault }
{
    match fault {
        LineFault::Bad { field } => Reply::Bad { field },
        LineFault::Memory => Reply::NoMemory,
    }
}

// What a line is told whose turn was halted.
pub(crate) fn halted(halt: Halt) -> Reply
    ensures { result ≡ halt_reply halt }
{
    match halt {
        Halt::DiskFault => Reply::DiskFault,
        Halt::NoMemory => Reply::NoMemory,
        Halt::Ahead { after, front } => Reply::Ahead { after, front },
    }
}

// What a hold is told that the history does not take.
pub(crate) fn hold_refused(number: u64, told: Refusal, front: u64) -> Reply
    requires { IsHoldTold told }
    ensures tells { TellsHold number front told result }
    ensures adds { AddsNothing result }
{
    match told {
        Refusal::Kept(entry, deed) => Reply::Kept {
            number,
            entry,
            front,
            deed,
        },
        Refusal::Other(Verdict::Gone(entry, freed_by)) => Reply::Gone {
            number,
            entry,
            freed_by,
            front,
        },
        Refusal::Other(Verdict::Other(entry)) => Reply::Other {
            number,
            entry,
            front,
        },
        Refusal::Other(Verdict::Taken(claim, owner)) => Reply::Taken {
            number,
            zone: claim.zone,
            owner,
            front,
        },
        _ => unreachable!(),
    }
}

// What a path is told that the client gave and the history does not take.
pub(crate) fn pin_refused(number: u64, told: Refusal, front: u64) -> Reply
    requires { IsPinTold told }
    ensures tells { TellsPin number front told result }
    ensures adds { AddsNothing result }
{
    match told {
        Refusal::Kept(entry, deed) => Reply::Kept {
            number,
            entry,
            front,
            deed,
        },
        Refusal::Other(Verdict::Gone(entry, freed_by)) => Reply::Gone {
            number,
            entry,
            freed_by,
            front,
        },
        Refusal::Other(Verdict::Other(entry)) => Reply::Other {
            number,
            entry,
            front,
        },
        Refusal::Other(Verdict::BreaksRequest(broken)) => Reply::Breaks {
            number,
            run: broken.run,
            rule: broken.rule,
            front,
        },
        Refusal::Other(Verdict::Taken(claim, owner)) => Reply::Taken {
            number,
            zone: claim.zone,
            owner,
            front,
        },
        _ => unreachable!(),
    }
}

// What a Free of an entry is told that the history does not take.
pub(crate) fn free_refused(number: u64, freed: u64, told: Refusal, front: u64) -> Reply
    requires { IsFreeTold told }
    ensures tells { TellsFree number freed front told result }
    ensures adds { AddsNothing result }
{
    match told {
        Refusal::Kept(entry, deed) => Reply::Kept {
            number,
            entry,
            front,
            deed,
        },
        Refusal::Other(Verdict::Gone(entry, freed_by)) => Reply::Gone {
            number,
            entry,
            freed_by,
            front,
        },
        Refusal::Other(Verdict::Other(entry)) => Reply::Other {
            number,
            entry,
            front,
        },
        Refusal::Other(Verdict::Unknown) => Reply::Unknown {
            entry: freed,
            front,
        },
        Refusal::Other(Verdict::NotYours(owner)) => Reply::NotYours {
            number,
            entry: freed,
            owner,
            front,
        },
        Refusal::Other(Verdict::AlreadyFreed(freed_by)) => Reply::AlreadyFreed {
            number,
            entry: freed,
            freed_by,
            front,
        },
        _ => unreachable!(),
    }
}

// What is told of a number that stands already.
pub(crate) fn number_told(number: u64, told: Refusal, front: u64) -> Reply
    requires { IsOfNumber told }
    ensures tells { TellsAgain number front told result }
    ensures adds { AddsNothing result }
{
    match told {
        Refusal::Kept(entry, deed) => Reply::Kept {
            number,
            entry,
            front,
            deed,
        },
        Refusal::Other(Verdict::Gone(entry, freed_by)) => Reply::Gone {
            number,
            entry,
            freed_by,
            front,
        },
        Refusal::Other(Verdict::Other(entry)) => Reply::Other {
            number,
            entry,
            front,
        },
        _ => unreachable!(),
    }
}

// What is told of a path that was sought.
pub(crate) fn ask_told(number: u64, outcome: Outcome, front: u64) -> Reply
    requires { IsOutcomeTold outcome }
    ensures tells { TellsAsk number front outcome result }
    ensures room { (text : Buffered) → HasRoomFor text outcome → room_for 0 ≤ text.spare
        → HasRoomIn text result ⊎ AddsNothing result }
{
    match outcome {
        Outcome::Entered(entered, runs) => path_told(number, entered, runs, front),
        Outcome::NoPath => Reply::NoPath { number, front },
        Outcome::Again { entry, searched } => Reply::Again {
            number,
            entry,
            searched,
            front,
        },
    }
}

// What is told of a path that was found, which has these runs.
fn path_told(number: u64, entered: Entered, runs: List<Run>, front: u64) -> Reply
    requires { IsRefusedByNumber entered }
    ensures tells { TellsPath number front entered runs result }
    ensures room { (text : Buffered) → HasRoomOf text runs → room_for 0 ≤ text.spare
        → HasRoomIn text result ⊎ AddsNothing result }
{
    match entered {
        Entered::Settled { at, front } => Reply::Granted {
            number,
            entry: at,
            front,
            runs,
        },
        Entered::Unsettled { at, front } => Reply::Unsettled {
            number,
            entry: at,
            front,
        },
        Entered::Refused(told) => number_told(number, told, front),
        Entered::Full => Reply::Full { number, front },
    }
}

// Keeps the text of a proof where one is wanted and stands beside the reply,
// and empties the buffer else.
pub(crate) fn keep_proof(proves: bool, reply: &Reply, proof: &mut Buffer)
    ensures { proof.new.held ≡ kept_text proves reply.now proof.old.held }
{
    if !proves {
        proof.clear();
        return;
    }
    match reply {
        Reply::NoPath { .. } | Reply::Granted { .. } => {}
        _ => proof.clear(),
    }
}
