//! The searches of an ask with their turns.

ghost use Rattle.std.specs.Prelude.{◌≡◌, ◌+◌, ◌≤◌, IfErr, IfOk, IsTrue};
ghost use Rattle.book_gate.specs.Passes.{turns_left, view};
ghost use Rattle.rail_types.specs.Limits.{IsClientName};
ghost use Rattle.ask_turns.specs.Clients.{IsCopyOf, Knows};
ghost use Rattle.ask_turns.specs.Turns.{IsReady, timetable_at};
ghost use Rattle.ask_turns.specs.Finds.{HasRoomFor, MayBeSearched};
ghost use Rattle.ask_turns.specs.Sharing.{IsShared};
ghost use Rattle.ask_turns.specs.Shown.{Shows};
ghost use Rattle.ask_turns.specs.Tries.{HasSearched, HasStopped, IsTheFront};

use crate::asks::{Ask, Outcome};
use crate::client_turns::{Halt, Tried, try_entry};
use crate::guests::Guest;
use crate::laws::{copies_have_ticks, found_paths_are_judged, found_paths_are_short};
use crate::searches::find_entry;
use crate::shared::Shared;
use byte_fields::Buffer;
use outside_io::{Between, Disk};
use std::alloc::Global;
use std::sync::Wait;

/// Searches a path beside the client's copy and tries it in a turn, up to three times, until it is
/// not missed by what came since the search. Room for the text of the reply that tells the path is
/// made before its turn. Where proofs are wanted, the text of what shows the answer takes the place
/// of what the buffer of the proof held, before the turn too.
pub fn try_searches<R: Wait, D: Disk, B: Between>(
    rt: &R,
    alloc: Global,
    shared: &Shared<D>,
    guest: &mut Guest<D, B>,
    ask: &Ask,
    text: &mut Buffer,
    proof: &mut Buffer,
) -> Result<Outcome, Halt>
    requires ready { IsReady shared.now.gate guest.old.pass }
    requires budget { 3 ≤ turns_left guest.old.pass }
    requires copy { IsCopyOf (timetable_at shared.now.gate) guest.old.client
        (view guest.old.pass).seen }
    requires name { IsClientName guest.old.client.name }
    requires shared { IsShared shared.now }
    requires may { MayBeSearched shared.now.known.railway.network shared.now.settings ask.now }
    ensures ready { IsReady shared.now.gate guest.new.pass }
    ensures budget { turns_left guest.old.pass ≤ turns_left guest.new.pass + 3 }
    ensures name { guest.new.client.name ≡ guest.old.client.name }
    ensures proves { guest.new.proves ≡ guest.old.proves }
    ensures knows { Knows (timetable_at shared.now.gate) guest.new.client
        (view guest.new.pass).seen }
    ensures searched { IfOk result (λ outcome. HasSearched (timetable_at shared.now.gate)
        guest.old.client.name ask.now outcome (view guest.old.pass) (view guest.new.pass)) }
    ensures shown { IfOk result (λ outcome. IsTrue guest.old.proves
        → Shows shared.now.known (timetable_at shared.now.gate) guest.old.client.name ask.now
        outcome proof.new.held (view guest.old.pass) (view guest.new.pass)) }
    ensures front { IfOk result (λ outcome.
        IsTheFront outcome guest.new.client.front (view guest.new.pass)) }
    ensures stopped { IfErr result (λ halt. HasStopped (timetable_at shared.now.gate)
        guest.old.client.name ask.now halt (view guest.old.pass) (view guest.new.pass)) }
    ensures held { text.new.held ≡ text.old.held }
    ensures spare { text.old.spare ≤ text.new.spare }
    ensures room { IfOk result (HasRoomFor text.new) }
{
    found_paths_are_short();
    found_paths_are_judged();
    let mut missed = 0;
    let mut front = 0;
    for search in 0..3u32 {
        let found = find_entry(
            alloc,
            &shared.known,
            &shared.settings,
            &guest.client,
            ask,
            text,
            guest.proves,
            proof,
        )?;
        let Some(found) = found else {
            return Ok(Outcome::NoPath);
        };
        guest.between.between(search + 1);
        copies_have_ticks(&guest.client);
        let searched = guest.client.front();
        let tried = try_entry(
            rt,
            alloc,
            &shared.gate,
            &mut guest.pass,
            &mut guest.client,
            found.entry,
        )?;
        copies_have_ticks(&guest.client);
        match tried {
            Tried::Entered(entered) => return Ok(Outcome::Entered(entered, found.runs)),
            Tried::Missed(at) => {
                missed = at;
                front = searched;
            }
        }
    }
    Ok(Outcome::Again {
        entry: missed,
        searched: front,
    })
}
