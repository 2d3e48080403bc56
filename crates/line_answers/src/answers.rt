//! One line, answered.
ghost use Rattle.std.specs.Prelude.{◌≡◌, ◌⊎◌, ◌+◌, ◌++◌, ◌≤◌, [], IfErr, IfOk, IsErr, IsOk, OnErr};
ghost use Rattle.std.specs.Prelude.{length};
ghost use Rattle.book_gate.specs.Passes.{turns_left, view};
ghost use Rattle.client_lines.specs.Within.{IsAskWithin};
ghost use Rattle.client_lines.specs.declared.lines.TheConstants.{MAX_LINE_BYTES};
ghost use Rattle.rail_types.specs.Limits.{IsClientName};
ghost use Rattle.client_lines.specs.Replies.{reply_text as text_of};
ghost use Rattle.client_lines.specs.Rooms.{room_for};
ghost use Rattle.client_lines.specs.declared.reply_texts.replies.Reply.TheVariants.{
  NoMemory as no_memory,
};
ghost use Rattle.ask_turns.specs.Clients.{Knows};
ghost use Rattle.ask_turns.specs.Sharing.{IsShared};
ghost use Rattle.ask_turns.specs.Turns.{IsReady, timetable_at};
ghost use Rattle.line_answers.specs.Asked.{HasRoomIn};
ghost use Rattle.line_answers.specs.Calls.{AnswersBetween};
ghost use Rattle.admission_rules.specs.Ruled.{stand};
ghost use Rattle.line_answers.specs.Callers.{AnswersAllowed, caller_of};
ghost use Rattle.line_answers.specs.Granting.{GrantsIfUnhindered};
ghost use Rattle.line_answers.specs.Proved.{IsProvedBetween, ShowsBytes, ShowsLine};
ghost use Rattle.line_answers.specs.Rules.{told_by};
ghost use Rattle.line_answers.specs.Tells.{AddsNothing};

use crate::asks::ask;
use crate::lines::{Numbered, Received, Sent};
use crate::replies::{keep_proof, unread};
use crate::rules::answer_ruled;
use crate::words::{free, front, hold, pin, show_entry};
use admission_rules::Rule;
use ask_turns::{Guest, Shared};
use byte_fields::Buffer;
use client_lines::reply_texts::{Reply, replies_have_room, reply_room, reply_text};
use client_lines::{Ask, Line, lines_are_within_limits, read_line};
use no_memory::NoMemory;
use outside_io::{Between, Disk};
use std::alloc::Global;
use std::sync::Wait;

/// Answers one line of a client in at most four turns: the reply, whose text comes behind what
/// stood in the buffer. For want of memory for the text nothing comes there, and nothing was added
/// to the history. What happens between the client's searches is called behind each that found a
/// path. The client's rules are asked as they stand, and told of the entry that the reply tells as
/// the line's own. Where the client wants proofs and the reply tells that a path was granted or
/// that there is none, the text of a proof takes the place of what the buffer of the proof held;
/// else that buffer is emptied. A path that nothing hinders is granted, unless memory is wanted.
pub fn answer_one<R: Wait, L: Rule, D: Disk, B: Between>(
    rt: &R,
    alloc: Global,
    shared: &Shared<D>,
    guest: &mut Guest<D, B>,
    rules: &mut [L],
    line: &Received<'_>,
    text: &mut Buffer,
    proof: &mut Buffer,
) -> Result<Reply, NoMemory>
    requires ready { IsReady shared.now.gate guest.old.pass }
    requires budget { 4 ≤ turns_left guest.old.pass }
    requires knows { Knows (timetable_at shared.now.gate) guest.old.client
        (view guest.old.pass).seen }
    requires shared { IsShared shared.now }
    requires name { IsClientName guest.old.client.name }
    requires line { length line.now.bytes.now ≤ MAX_LINE_BYTES }
    ensures ready { IsReady shared.now.gate guest.new.pass }
    ensures budget { turns_left guest.old.pass ≤ turns_left guest.new.pass + 4 }
    ensures name { guest.new.client.name ≡ guest.old.client.name }
    ensures proves { guest.new.proves ≡ guest.old.proves }
    ensures knows { Knows (timetable_at shared.now.gate) guest.new.client
        (view guest.new.pass).seen }
    ensures answers { IfOk result (λ reply.
        AnswersBetween
        (caller_of shared.now (stand L.Rule rules.old) guest.old.client.name line.now.number)
        line.now.bytes.now reply (view guest.old.pass) (view guest.new.pass)) }
    ensures granted { IfOk result (λ reply.
        GrantsIfUnhindered
        (caller_of shared.now (stand L.Rule rules.old) guest.old.client.name line.now.number)
        line.now.bytes.now reply (view guest.old.pass) (view guest.new.pass)) }
    ensures proved { IfOk result (λ reply.
        IsProvedBetween shared.now.known (timetable_at shared.now.gate) guest.old.proves
        line.now.bytes.now reply proof.new.held (view guest.old.pass) (view guest.new.pass)) }
    ensures told { IfOk result (λ reply. stand L.Rule rules.new
        ≡ told_by (view guest.new.pass).seen reply (stand L.Rule rules.old)) }
    ensures text { IfOk result (λ reply. text.new.held ≡ text.old.held ++ text_of reply) }
    ensures wanted { IfErr result (λ _.
        AnswersBetween
        (caller_of shared.now (stand L.Rule rules.old) guest.old.client.name line.now.number)
        line.now.bytes.now no_memory (view guest.old.pass) (view guest.new.pass)) }
    ensures untold { OnErr result (text.new.held ≡ text.old.held) }
    ensures unproved { OnErr result (proof.new.held ≡ []) }
    ensures unruled { OnErr result (stand L.Rule rules.new ≡ stand L.Rule rules.old) }
{
    replies_have_room();
    proof.clear();
    // Room for the reply of a line that adds an entry is made before any turn.
    text.reserve(reply_room(0))?;
    let reply = answer_bytes(rt, alloc, shared, guest, rules, line, text, proof);
    keep_proof(guest.proves, &reply, proof);
    print(reply, text, proof)
}

// Prints a reply behind what stands in the buffer of its text. For want of memory nothing comes
// there, and the buffer of the proof is emptied.
#[inline(always)]
fn print(reply: Reply, text: &mut Buffer, proof: &mut Buffer) -> Result<Reply, NoMemory>
    ensures same { IfOk result (λ told. told ≡ reply) }
    ensures text { IfOk result (λ told. text.new.held ≡ text.old.held ++ text_of told) }
    ensures proved { IfOk result (λ _. proof.new.held ≡ proof.old.held) }
    ensures untold { OnErr result (text.new.held ≡ text.old.held) }
    ensures unproved { OnErr result (proof.new.held ≡ []) }
    ensures room { length (text_of reply) ≤ text.old.spare → IsOk result }
{
    match reply_text(&reply, text) {
        Ok(()) => Ok(reply),
        Err(NoMemory) => refuse(reply, proof),
    }
}

// Refuses a reply for want of memory, and empties the buffer of the proof.
fn refuse(_reply: Reply, proof: &mut Buffer) -> Result<Reply, NoMemory>
    ensures refused { IsErr result }
    ensures emptied { proof.new.held ≡ [] }
{
    proof.clear();
    Err(NoMemory)
}

// Reads a line and answers it. There is room for the reply, or it tells of no entry
// that was added and of no fault.
#[inline(always)]
fn answer_bytes<R: Wait, L: Rule, D: Disk, B: Between>(
    rt: &R,
    alloc: Global,
    shared: &Shared<D>,
    guest: &mut Guest<D, B>,
    rules: &mut [L],
    line: &Received<'_>,
    text: &mut Buffer,
    proof: &mut Buffer,
) -> Reply
    requires ready { IsReady shared.now.gate guest.old.pass }
    requires budget { 4 ≤ turns_left guest.old.pass }
    requires knows { Knows (timetable_at shared.now.gate) guest.old.client
        (view guest.old.pass).seen }
    requires shared { IsShared shared.now }
    requires name { IsClientName guest.old.client.name }
    requires line { length line.now.bytes.now ≤ MAX_LINE_BYTES }
    requires spare { room_for 0 ≤ text.old.spare }
    ensures ready { IsReady shared.now.gate guest.new.pass }
    ensures budget { turns_left guest.old.pass ≤ turns_left guest.new.pass + 4 }
    ensures name { guest.new.client.name ≡ guest.old.client.name }
    ensures proves { guest.new.proves ≡ guest.old.proves }
    ensures knows { Knows (timetable_at shared.now.gate) guest.new.client
        (view guest.new.pass).seen }
    ensures answers { AnswersBetween
        (caller_of shared.now (stand L.Rule rules.old) guest.old.client.name line.now.number)
        line.now.bytes.now result (view guest.old.pass) (view guest.new.pass) }
    ensures granted { GrantsIfUnhindered
        (caller_of shared.now (stand L.Rule rules.old) guest.old.client.name line.now.number)
        line.now.bytes.now result (view guest.old.pass) (view guest.new.pass) }
    ensures shown { ShowsBytes shared.now guest.old.proves line.now.bytes.now result
        proof.new.held (view guest.old.pass) (view guest.new.pass) }
    ensures told { stand L.Rule rules.new
        ≡ told_by (view guest.new.pass).seen result (stand L.Rule rules.old) }
    ensures held { text.new.held ≡ text.old.held }
    ensures room { HasRoomIn text.new result ⊎ AddsNothing result }
{
    lines_are_within_limits();
    match read_line(alloc, line.bytes, &shared.known) {
        Ok(said) => {
            let numbered = Numbered {
                number: line.number,
                line: said,
            };
            answer_ruled(rt, alloc, shared, guest, rules, numbered, text, proof)
        }
        Err(fault) => unread(fault),
    }
}

// Answers a line that was read and that no rule denies, by its word.
#[inline(always)]
pub(crate) fn answer_line<R: Wait, D: Disk, B: Between>(
    rt: &R,
    alloc: Global,
    shared: &Shared<D>,
    guest: &mut Guest<D, B>,
    numbered: Numbered,
    text: &mut Buffer,
    proof: &mut Buffer,
) -> Reply
    requires ready { IsReady shared.now.gate guest.old.pass }
    requires budget { 4 ≤ turns_left guest.old.pass }
    requires knows { Knows (timetable_at shared.now.gate) guest.old.client
        (view guest.old.pass).seen }
    requires name { IsClientName guest.old.client.name }
    requires shared { IsShared shared.now }
    requires within { IsAskWithin (timetable_at shared.now.gate).net numbered.line.ask }
    requires spare { room_for 0 ≤ text.old.spare }
    ensures ready { IsReady shared.now.gate guest.new.pass }
    ensures budget { turns_left guest.old.pass ≤ turns_left guest.new.pass + 4 }
    ensures name { guest.new.client.name ≡ guest.old.client.name }
    ensures proves { guest.new.proves ≡ guest.old.proves }
    ensures knows { Knows (timetable_at shared.now.gate) guest.new.client
        (view guest.new.pass).seen }
    ensures answers { AnswersAllowed shared.now guest.old.client.name numbered.number numbered.line
        result (view guest.old.pass) (view guest.new.pass) }
    ensures shown { ShowsLine shared.now guest.old.proves numbered.line result proof.new.held
        (view guest.old.pass) (view guest.new.pass) }
    ensures held { text.new.held ≡ text.old.held }
    ensures room { HasRoomIn text.new result ⊎ AddsNothing result }
{
    let line = numbered.number;
    let Line { after, ask: asked } = numbered.line;
    match asked {
        Ask::Hold(number, claims, reason) => {
            let sent = Sent {
                line,
                after,
                number,
            };
            hold(
                rt,
                alloc,
                shared,
                &mut guest.pass,
                &guest.client,
                sent,
                claims,
                reason,
            )
        }
        Ask::Pin(number, path) => {
            let sent = Sent {
                line,
                after,
                number,
            };
            pin(
                rt,
                alloc,
                shared,
                &mut guest.pass,
                &guest.client,
                sent,
                path,
            )
        }
        Ask::Path(number, request) => {
            let sent = Sent {
                line,
                after,
                number,
            };
            ask(rt, alloc, shared, guest, sent, request, text, proof)
        }
        Ask::Free(number, freed) => {
            let sent = Sent {
                line,
                after,
                number,
            };
            free(
                rt,
                alloc,
                shared,
                &mut guest.pass,
                &guest.client,
                sent,
                freed,
            )
        }
        Ask::Show(at) => show_entry(
            rt,
            alloc,
            shared,
            &mut guest.pass,
            &mut guest.client,
            line,
            after,
            at,
        ),
        Ask::Front => front(rt, shared, &mut guest.pass, &mut guest.client, line, after),
    }
}
