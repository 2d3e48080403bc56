//! What the rules of a client say to a line, and what they are told by its reply.
ghost use Rattle.std.specs.Prelude.{◌≡◌, ◌+◌, ◌⊎◌, ◌≤◌, ◌<◌, [], length};
ghost use Rattle.book_gate.specs.Passes.{turns_left, view};
ghost use Rattle.client_lines.specs.Within.{IsAskWithin};
ghost use Rattle.client_lines.specs.declared.asks.Ask.TheVariants.{Free as free_of};
ghost use Rattle.client_lines.specs.declared.asks.Line.{Line as line_type};
ghost use Rattle.admission_rules.specs.Ruled.{stand};
ghost use Rattle.rail_types.specs.Limits.{IsClientName};
ghost use Rattle.client_lines.specs.Rooms.{IsBehindEntry, room_for};
ghost use Rattle.ask_turns.specs.Clients.{Knows};
ghost use Rattle.ask_turns.specs.Sharing.{IsShared};
ghost use Rattle.ask_turns.specs.Turns.{IsReady, timetable_at};
ghost use Rattle.line_answers.specs.Answers.{MayBeDenied};
ghost use Rattle.line_answers.specs.Asked.{HasRoomIn, asking};
ghost use Rattle.line_answers.specs.Callers.{AnswersDenied, AnswersLine, caller_of};
ghost use Rattle.line_answers.specs.Points.{added};
ghost use Rattle.line_answers.specs.Proved.{ShowsLine};
ghost use Rattle.line_answers.specs.Rules.{IsNoFree, IsSentWith, TellsLine, is_some_added};
ghost use Rattle.line_answers.specs.Rules.{told_free, told_grant, wished};
ghost use Rattle.line_answers.specs.Tells.{AddsNothing};

use crate::answers::answer_line;
use crate::asks::check_request;
use crate::lines::{Numbered, Sent};
use crate::numbers::check_number;
use crate::replies::halted;
use crate::words::free;
use admission_rules::client_rules::{
    asked_wish, first_denial, given_wish, tell_freed, tell_granted, wish_of,
};
use admission_rules::rule_names::RuleName;
use admission_rules::{Rule, Wish};
use ask_turns::client_turns::{Client, show};
use ask_turns::{Guest, Shared};
use book_gate::Pass;
use byte_fields::Buffer;
use client_lines::reply_texts::Reply;
use client_lines::{Ask, Line};
use outside_io::{Between, Disk};
use path_commit::Book;
use rail_types::{Deed, Request, Wanted};
use std::alloc::Global;
use std::sync::Wait;

// Answers a line that was read. A client without rules takes no turn for them.
#[inline(always)]
pub(crate) fn answer_ruled<R: Wait, L: Rule, D: Disk, B: Between>(
    rt: &R,
    alloc: Global,
    shared: &Shared<D>,
    guest: &mut Guest<D, B>,
    rules: &mut [L],
    numbered: Numbered,
    text: &mut Buffer,
    proof: &mut Buffer,
) -> Reply
    requires ready { IsReady shared.now.gate guest.old.pass }
    requires budget { 4 ≤ turns_left guest.old.pass }
    requires knows { Knows (timetable_at shared.now.gate) guest.old.client
        (view guest.old.pass).seen }
    requires name { IsClientName guest.old.client.name }
    requires shared { IsShared shared.now }
    requires within { IsAskWithin (timetable_at shared.now.gate).net numbered.line.ask }
    requires spare { room_for 0 ≤ text.old.spare }
    ensures ready { IsReady shared.now.gate guest.new.pass }
    ensures budget { turns_left guest.old.pass ≤ turns_left guest.new.pass + 4 }
    ensures name { guest.new.client.name ≡ guest.old.client.name }
    ensures proves { guest.new.proves ≡ guest.old.proves }
    ensures knows { Knows (timetable_at shared.now.gate) guest.new.client
        (view guest.new.pass).seen }
    ensures answers { AnswersLine
        (caller_of shared.now (stand L.Rule rules.old) guest.old.client.name numbered.number)
        numbered.line result (view guest.old.pass) (view guest.new.pass) }
    ensures shown { ShowsLine shared.now guest.old.proves numbered.line result proof.new.held
        (view guest.old.pass) (view guest.new.pass) }
    ensures told { TellsLine shared.now.known numbered.line (view guest.new.pass).seen result
        (stand L.Rule rules.old) (stand L.Rule rules.new) }
    ensures held { text.new.held ≡ text.old.held }
    ensures room { HasRoomIn text.new result ⊎ AddsNothing result }
{
    if rules.is_empty() {
        return answer_line(rt, alloc, shared, guest, numbered, text, proof);
    }
    let line = numbered.number;
    let Line { after, ask } = numbered.line;
    match ask {
        Ask::Free(number, freed) => {
            let sent = Sent {
                line,
                after,
                number,
            };
            free_ruled(
                rt,
                alloc,
                shared,
                &mut guest.pass,
                &mut guest.client,
                rules,
                sent,
                freed,
            )
        }
        ask => {
            let numbered = Numbered {
                number: line,
                line: Line { after, ask },
            };
            answer_wished(rt, alloc, shared, guest, rules, numbered, text, proof)
        }
    }
}

// Answers a line that frees nothing: the rules are asked before, and told behind a grant.
fn answer_wished<R: Wait, L: Rule, D: Disk, B: Between>(
    rt: &R,
    alloc: Global,
    shared: &Shared<D>,
    guest: &mut Guest<D, B>,
    rules: &mut [L],
    numbered: Numbered,
    text: &mut Buffer,
    proof: &mut Buffer,
) -> Reply
    requires ready { IsReady shared.now.gate guest.old.pass }
    requires budget { 4 ≤ turns_left guest.old.pass }
    requires knows { Knows (timetable_at shared.now.gate) guest.old.client
        (view guest.old.pass).seen }
    requires name { IsClientName guest.old.client.name }
    requires shared { IsShared shared.now }
    requires within { IsAskWithin (timetable_at shared.now.gate).net numbered.line.ask }
    requires spare { room_for 0 ≤ text.old.spare }
    requires no_free { IsNoFree numbered.line.ask }
    ensures ready { IsReady shared.now.gate guest.new.pass }
    ensures budget { turns_left guest.old.pass ≤ turns_left guest.new.pass + 4 }
    ensures name { guest.new.client.name ≡ guest.old.client.name }
    ensures proves { guest.new.proves ≡ guest.old.proves }
    ensures knows { Knows (timetable_at shared.now.gate) guest.new.client
        (view guest.new.pass).seen }
    ensures answers { AnswersLine
        (caller_of shared.now (stand L.Rule rules.old) guest.old.client.name numbered.number)
        numbered.line result (view guest.old.pass) (view guest.new.pass) }
    ensures shown { ShowsLine shared.now guest.old.proves numbered.line result proof.new.held
        (view guest.old.pass) (view guest.new.pass) }
    ensures told { TellsLine shared.now.known numbered.line (view guest.new.pass).seen result
        (stand L.Rule rules.old) (stand L.Rule rules.new) }
    ensures held { text.new.held ≡ text.old.held }
    ensures room { HasRoomIn text.new result ⊎ AddsNothing result }
{
    let wish = wish_of_line(&numbered.line.ask);
    if let Some(rule) = first_denial(rules, &wish) {
        return deny(
            rt,
            alloc,
            shared,
            &mut guest.pass,
            &mut guest.client,
            numbered,
            rule,
        );
    }
    let reply = answer_line(rt, alloc, shared, guest, numbered, text, proof);
    tell_of_grant(rules, &wish, &reply);
    reply
}

// What is wished by a line.
fn wish_of_line(ask: &Ask) -> Option<Wish>
    ensures { result ≡ wished ask.now }
{
    match ask {
        Ask::Pin(_number, path) => given_wish(path),
        Ask::Path(_number, request) => Some(asked_wish(request)),
        Ask::Hold(_number, _claims, _reason) => None,
        Ask::Free(_number, _freed) => None,
        Ask::Show(_at) => None,
        Ask::Front => None,
    }
}

// Whether a reply tells an own entry.
fn adds_entry(reply: &Reply) -> bool
    ensures { result ≡ is_some_added (added reply.now) }
{
    match reply {
        Reply::Held { .. }
        | Reply::Pinned { .. }
        | Reply::Granted { .. }
        | Reply::Freed { .. }
        | Reply::Unsettled { .. } => true,
        _ => false,
    }
}

// Tells the rules that what was wished was granted, where the reply tells an own entry.
fn tell_of_grant<L: Rule>(rules: &mut [L], wish: &Option<Wish>, reply: &Reply)
    ensures { stand L.Rule rules.new
        ≡ told_grant (added reply.now) wish.now (stand L.Rule rules.old) }
{
    if adds_entry(reply) {
        tell_granted(rules, wish);
    }
}

// Tells the rules that what had been granted was freed, where the reply tells an own entry.
fn tell_of_free<L: Rule>(rules: &mut [L], wish: &Option<Wish>, reply: &Reply)
    ensures { stand L.Rule rules.new
        ≡ told_free (added reply.now) wish.now (stand L.Rule rules.old) }
{
    if adds_entry(reply) {
        tell_freed(rules, wish);
    }
}

// Tells what the number of a line stands for that a rule denies, and where it is new, that rule.
fn deny<R: Wait, D: Disk>(
    rt: &R,
    alloc: Global,
    shared: &Shared<D>,
    pass: &mut Pass<Book<D>>,
    client: &mut Client,
    numbered: Numbered,
    rule: RuleName,
) -> Reply
    requires ready { IsReady shared.now.gate pass.old }
    requires budget { 1 ≤ turns_left pass.old }
    requires knows { Knows (timetable_at shared.now.gate) client.old (view pass.old).seen }
    requires name { IsClientName client.old.name }
    requires may { MayBeDenied numbered.line.ask }
    ensures ready { IsReady shared.now.gate pass.new }
    ensures budget { turns_left pass.old ≤ turns_left pass.new + 1 }
    ensures name { client.new.name ≡ client.old.name }
    ensures knows { Knows (timetable_at shared.now.gate) client.new (view pass.new).seen }
    ensures answers { AnswersDenied shared.now client.old.name numbered.number numbered.line rule
        result (view pass.old) (view pass.new) }
    ensures none { added result ≡ [] }
    ensures short { IsBehindEntry 0 result ⊎ AddsNothing result }
{
    let line = numbered.number;
    let Line { after, ask } = numbered.line;
    match ask {
        Ask::Pin(number, path) => {
            let deed = Deed::Grant(Wanted::Pinned, path);
            let sent = Sent {
                line,
                after,
                number,
            };
            deny_deed(rt, alloc, shared, pass, client, sent, &deed, rule)
        }
        Ask::Path(number, request) => {
            let sent = Sent {
                line,
                after,
                number,
            };
            deny_asked(rt, alloc, shared, pass, client, sent, &request, rule)
        }
        _ => unreachable!(),
    }
}

// The same of a line with this number and deed.
fn deny_deed<R: Wait, D: Disk>(
    rt: &R,
    alloc: Global,
    shared: &Shared<D>,
    pass: &mut Pass<Book<D>>,
    client: &mut Client,
    sent: Sent,
    deed: &Deed,
    rule: RuleName,
) -> Reply
    requires ready { IsReady shared.now.gate pass.old }
    requires budget { 1 ≤ turns_left pass.old }
    requires knows { Knows (timetable_at shared.now.gate) client.old (view pass.old).seen }
    requires name { IsClientName client.old.name }
    ensures ready { IsReady shared.now.gate pass.new }
    ensures budget { turns_left pass.old ≤ turns_left pass.new + 1 }
    ensures name { client.new.name ≡ client.old.name }
    ensures knows { Knows (timetable_at shared.now.gate) client.new (view pass.new).seen }
    ensures answers { (line : line_type) → IsSentWith line sent.after sent.number deed.now
        → AnswersDenied shared.now client.old.name sent.line line rule result
        (view pass.old) (view pass.new) }
    ensures none { added result ≡ [] }
    ensures short { IsBehindEntry 0 result ⊎ AddsNothing result }
{
    match check_number(rt, alloc, shared, pass, client, sent, deed) {
        Ok(()) => Reply::Denied {
            number: sent.number,
            rule,
            front: client.front(),
        },
        Err(told) => told,
    }
}

// The same of a line with this number that seeks a path for the request.
fn deny_asked<R: Wait, D: Disk>(
    rt: &R,
    alloc: Global,
    shared: &Shared<D>,
    pass: &mut Pass<Book<D>>,
    client: &mut Client,
    sent: Sent,
    request: &Request,
    rule: RuleName,
) -> Reply
    requires ready { IsReady shared.now.gate pass.old }
    requires budget { 1 ≤ turns_left pass.old }
    requires knows { Knows (timetable_at shared.now.gate) client.old (view pass.old).seen }
    requires name { IsClientName client.old.name }
    ensures ready { IsReady shared.now.gate pass.new }
    ensures budget { turns_left pass.old ≤ turns_left pass.new + 1 }
    ensures name { client.new.name ≡ client.old.name }
    ensures knows { Knows (timetable_at shared.now.gate) client.new (view pass.new).seen }
    ensures answers { AnswersDenied shared.now client.old.name sent.line
        (asking sent.after sent.number request.now) rule result (view pass.old) (view pass.new) }
    ensures none { added result ≡ [] }
    ensures short { IsBehindEntry 0 result ⊎ AddsNothing result }
{
    match check_request(rt, alloc, shared, pass, client, sent, request) {
        Ok(()) => Reply::Denied {
            number: sent.number,
            rule,
            front: client.front(),
        },
        Err(told) => told,
    }
}

// Frees an entry of a client with rules: what it had been granted is known before it is freed, so
// that the rules can be told of it.
fn free_ruled<R: Wait, L: Rule, D: Disk>(
    rt: &R,
    alloc: Global,
    shared: &Shared<D>,
    pass: &mut Pass<Book<D>>,
    client: &mut Client,
    rules: &mut [L],
    sent: Sent,
    freed: u64,
) -> Reply
    requires ready { IsReady shared.now.gate pass.old }
    requires budget { 3 ≤ turns_left pass.old }
    requires knows { Knows (timetable_at shared.now.gate) client.old (view pass.old).seen }
    requires name { IsClientName client.old.name }
    requires within { IsAskWithin (timetable_at shared.now.gate).net (free_of sent.number freed) }
    requires some { 0 < length rules.old }
    ensures ready { IsReady shared.now.gate pass.new }
    ensures budget { turns_left pass.old ≤ turns_left pass.new + 3 }
    ensures name { client.new.name ≡ client.old.name }
    ensures knows { Knows (timetable_at shared.now.gate) client.new (view pass.new).seen }
    ensures answers { AnswersLine
        (caller_of shared.now (stand L.Rule rules.old) client.old.name sent.line)
        (record { after = sent.after; ask = free_of sent.number freed }) result
        (view pass.old) (view pass.new) }
    ensures told { TellsLine shared.now.known
        (record { after = sent.after; ask = free_of sent.number freed })
        (view pass.new).seen result (stand L.Rule rules.old) (stand L.Rule rules.new) }
    ensures short { IsBehindEntry 0 result ⊎ AddsNothing result }
{
    let new = check_number(rt, alloc, shared, pass, client, sent, &Deed::Free(freed));
    match new {
        Ok(()) => {
            let front = client.front();
            if front <= freed {
                Reply::Unknown {
                    entry: freed,
                    front,
                }
            } else {
                free_found(rt, alloc, shared, pass, client, rules, sent, freed)
            }
        }
        Err(told) => told,
    }
}

// Frees an entry behind a turn that found one there.
fn free_found<R: Wait, L: Rule, D: Disk>(
    rt: &R,
    alloc: Global,
    shared: &Shared<D>,
    pass: &mut Pass<Book<D>>,
    client: &mut Client,
    rules: &mut [L],
    sent: Sent,
    freed: u64,
) -> Reply
    requires ready { IsReady shared.now.gate pass.old }
    requires budget { 2 ≤ turns_left pass.old }
    requires knows { Knows (timetable_at shared.now.gate) client.old (view pass.old).seen }
    requires name { IsClientName client.old.name }
    requires within { IsAskWithin (timetable_at shared.now.gate).net (free_of sent.number freed) }
    requires stands { freed < length (view pass.old).seen }
    requires some { 0 < length rules.old }
    ensures ready { IsReady shared.now.gate pass.new }
    ensures budget { turns_left pass.old ≤ turns_left pass.new + 2 }
    ensures name { client.new.name ≡ client.old.name }
    ensures knows { Knows (timetable_at shared.now.gate) client.new (view pass.new).seen }
    ensures answers { AnswersLine
        (caller_of shared.now (stand L.Rule rules.old) client.old.name sent.line)
        (record { after = sent.after; ask = free_of sent.number freed }) result
        (view pass.old) (view pass.new) }
    ensures told { TellsLine shared.now.known
        (record { after = sent.after; ask = free_of sent.number freed })
        (view pass.new).seen result (stand L.Rule rules.old) (stand L.Rule rules.new) }
    ensures short { IsBehindEntry 0 result ⊎ AddsNothing result }
{
    match show(rt, alloc, &shared.gate, pass, client, sent.after, freed) {
        Ok(Some(standing)) => {
            let wish = wish_of(&standing.entry.deed);
            let reply = free(rt, alloc, shared, pass, client, sent, freed);
            tell_of_free(rules, &wish, &reply);
            reply
        }
        // The entry stood there in the turn before.
        Ok(None) => unreachable!(),
        Err(halt) => halted(halt),
    }
}
