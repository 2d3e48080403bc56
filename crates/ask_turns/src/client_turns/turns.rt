//! The turns that a client takes, each whole.
ghost use Rattle.std.specs.Prelude.{◌≡◌, ℕ, ◌+◌, ◌<◌, ◌≤◌, IfErr, IfOk, IfSome, IsNone, None, Some};
ghost use Rattle.std.specs.Prelude.{length};
ghost use Rattle.rail_types.specs.declared.limits.TheConstants.{MAX_OWNER_BYTES};
ghost use Rattle.book_gate.specs.Passes.{turns_left, view};
ghost use Rattle.book_gate.specs.Views.{StartsWith};
ghost use Rattle.path_commit.specs.history.Legal.{IsInRange};
ghost use Rattle.ask_turns.specs.Clients.{IsCopyOf, Knows};
ghost use Rattle.ask_turns.specs.Told.{IsFoundAgain, IsStanding};
ghost use Rattle.ask_turns.specs.Turns.{HasEntered, HasTried, IsHalted, IsOpen, IsReached};
ghost use Rattle.ask_turns.specs.Turns.{IsReady, IsStopped, Looks, timetable_at};

use crate::client_turns::clients::Client;
use crate::client_turns::halts::Halt;
use crate::client_turns::told::{
    Judged, Refusal, Standing, Tried, enter_in, standing_at, told_again, try_in,
};
use book_gate::{Gate, Held, Pass};
use outside_io::Disk;
use path_commit::Book;
use path_commit::journal::Settled;
use rail_types::{Deed, Entry};
use std::alloc::Global;
use std::sync::Wait;

// Opens a turn: what is not settled is settled first, and the front that is named, if one is, must
// not be beyond the front of now.
fn open_turn<R: Wait, D: Disk>(
    rt: &R,
    gate: &Gate<Book<D>>,
    pass: &mut Pass<Book<D>>,
    after: Option<u64>,
) -> Result<Held<Book<D>>, Halt>
    requires ready { IsReady gate.now pass.old }
    requires budget { 1 ≤ turns_left pass.old }
    ensures goes_on { StartsWith (view pass.new).found.list (view pass.old).seen }
    ensures budget { turns_left pass.new + 1 ≡ turns_left pass.old }
    ensures open { IfOk result (IsOpen D.faults gate.now pass.old pass.new after) }
    ensures ready { IfErr result (λ _. IsReady gate.now pass.new) }
    ensures halted { IfErr result (λ halt.
        IsHalted halt after (view pass.old) (view pass.new)) }
{
    let mut held = gate.enter(rt, pass);
    if let Settled::Fault = held.book().settle() {
        gate.leave(pass, held);
        return Err(Halt::DiskFault);
    }
    let front = held.book().front();
    if let Some(after) = beyond(after, front) {
        gate.leave(pass, held);
        return Err(Halt::Ahead { after, front });
    }
    Ok(held)
}

// Opens a turn, and brings the client's copy up.
fn open_known<R: Wait, D: Disk>(
    rt: &R,
    gate: &Gate<Book<D>>,
    pass: &mut Pass<Book<D>>,
    client: &mut Client,
    after: Option<u64>,
) -> Result<Held<Book<D>>, Halt>
    requires ready { IsReady gate.now pass.old }
    requires budget { 1 ≤ turns_left pass.old }
    requires knows { Knows (timetable_at gate.now) client.old (view pass.old).seen }
    ensures name { client.new.name ≡ client.old.name }
    ensures knows { Knows (timetable_at gate.now) client.new (view pass.new).found.list }
    ensures budget { turns_left pass.new + 1 ≡ turns_left pass.old }
    ensures open { IfOk result (IsOpen D.faults gate.now pass.old pass.new after) }
    ensures copy { IfOk result (λ _.
        IsCopyOf (timetable_at gate.now) client.new (view pass.new).found.list) }
    ensures ready { IfErr result (λ _. IsReady gate.now pass.new) }
    ensures halted { IfErr result (λ halt.
        IsHalted halt after (view pass.old) (view pass.new)) }
{
    let mut held = open_turn(rt, gate, pass, after)?;
    if client.catch_up(held.book()).is_err() {
        gate.leave(pass, held);
        return Err(Halt::NoMemory);
    }
    Ok(held)
}

// The front that is named, where it is beyond this one.
fn beyond(after: Option<u64>, front: u64) -> Option<u64>
    ensures some { IfSome result (λ named. (after ≡ Some named) × (front < named)) }
    ensures none { IsNone result → (named : ℕ) → after ≡ Some named → named ≤ front }
{
    let named = after?;
    if named > front { Some(named) } else { None }
}

/// A turn in which nothing is done. `after` is a front that the turn is to be at or behind.
pub fn look<R: Wait, D: Disk>(
    rt: &R,
    gate: &Gate<Book<D>>,
    pass: &mut Pass<Book<D>>,
    client: &mut Client,
    after: Option<u64>,
) -> Result<(), Halt>
    requires ready { IsReady gate.now pass.old }
    requires budget { 1 ≤ turns_left pass.old }
    requires knows { Knows (timetable_at gate.now) client.old (view pass.old).seen }
    ensures ready { IsReady gate.now pass.new }
    ensures name { client.new.name ≡ client.old.name }
    ensures knows { Knows (timetable_at gate.now) client.new (view pass.new).seen }
    ensures budget { turns_left pass.new + 1 ≡ turns_left pass.old }
    ensures looks { IfOk result (λ _. Looks (view pass.old) (view pass.new)) }
    ensures copy { IfOk result (λ _.
        IsCopyOf (timetable_at gate.now) client.new (view pass.new).found.list) }
    ensures reached { IfOk result (λ _. IsReached after (view pass.new).found.list) }
    ensures halted { IfErr result (λ halt.
        IsHalted halt after (view pass.old) (view pass.new)) }
{
    let held = open_known(rt, gate, pass, client, after)?;
    gate.leave(pass, held);
    Ok(())
}

/// A turn that shows the entry at a position, and who freed it; None from the front on.
pub fn show<R: Wait, D: Disk>(
    rt: &R,
    alloc: Global,
    gate: &Gate<Book<D>>,
    pass: &mut Pass<Book<D>>,
    client: &mut Client,
    after: Option<u64>,
    at: u64,
) -> Result<Option<Standing>, Halt>
    requires ready { IsReady gate.now pass.old }
    requires budget { 1 ≤ turns_left pass.old }
    requires knows { Knows (timetable_at gate.now) client.old (view pass.old).seen }
    ensures ready { IsReady gate.now pass.new }
    ensures name { client.new.name ≡ client.old.name }
    ensures knows { Knows (timetable_at gate.now) client.new (view pass.new).seen }
    ensures budget { turns_left pass.new + 1 ≡ turns_left pass.old }
    ensures looks { IfOk result (λ _. Looks (view pass.old) (view pass.new)) }
    ensures shows { IfOk result (IsStanding (view pass.new).found.list at) }
    ensures copy { IfOk result (λ _.
        IsCopyOf (timetable_at gate.now) client.new (view pass.new).found.list) }
    ensures reached { IfOk result (λ _. IsReached after (view pass.new).found.list) }
    ensures halted { IfErr result (λ halt.
        IsHalted halt after (view pass.old) (view pass.new)) }
{
    let mut held = open_known(rt, gate, pass, client, after)?;
    let standing = standing_at(alloc, held.book().history(), at);
    gate.leave(pass, held);
    let standing = standing?;
    Ok(standing)
}

/// A turn that tells of the client's number, where it stands already, by the deed that is
/// sent with it; None where it is new. Of a path that is asked for the request alone
/// counts, so the path may be any.
pub fn find_again<R: Wait, D: Disk>(
    rt: &R,
    alloc: Global,
    gate: &Gate<Book<D>>,
    pass: &mut Pass<Book<D>>,
    client: &mut Client,
    after: Option<u64>,
    number: u64,
    deed: &Deed,
) -> Result<Option<Refusal>, Halt>
    requires ready { IsReady gate.now pass.old }
    requires budget { 1 ≤ turns_left pass.old }
    requires knows { Knows (timetable_at gate.now) client.old (view pass.old).seen }
    requires owner { length client.old.name ≤ MAX_OWNER_BYTES }
    ensures ready { IsReady gate.now pass.new }
    ensures name { client.new.name ≡ client.old.name }
    ensures knows { Knows (timetable_at gate.now) client.new (view pass.new).seen }
    ensures budget { turns_left pass.new + 1 ≡ turns_left pass.old }
    ensures looks { IfOk result (λ _. Looks (view pass.old) (view pass.new)) }
    ensures found { IfOk result
        (IsFoundAgain (view pass.new).found.list client.old.name number deed.now) }
    ensures copy { IfOk result (λ _.
        IsCopyOf (timetable_at gate.now) client.new (view pass.new).found.list) }
    ensures reached { IfOk result (λ _. IsReached after (view pass.new).found.list) }
    ensures halted { IfErr result (λ halt.
        IsHalted halt after (view pass.old) (view pass.new)) }
{
    let mut held = open_known(rt, gate, pass, client, after)?;
    let again = told_again(alloc, held.book().history(), &client.name, number, deed);
    gate.leave(pass, held);
    let again = again?;
    Ok(again)
}

/// A turn that judges an entry by what it found, and takes it in where it is
/// fresh and its record has room. No client's copy is needed for it. Tells what
/// became of the entry, and the front that the turn found, at `after` or behind it.
#[inline(always)]
pub fn enter_entry<R: Wait, D: Disk>(
    rt: &R,
    alloc: Global,
    gate: &Gate<Book<D>>,
    pass: &mut Pass<Book<D>>,
    after: Option<u64>,
    entry: Entry,
) -> Result<Judged, Halt>
    requires ready { IsReady gate.now pass.old }
    requires budget { 1 ≤ turns_left pass.old }
    requires range { IsInRange (timetable_at gate.now) entry }
    ensures ready { IsReady gate.now pass.new }
    ensures grows { StartsWith (view pass.new).seen (view pass.old).seen }
    ensures budget { turns_left pass.new + 1 ≡ turns_left pass.old }
    ensures entered { IfOk result (λ judged. HasEntered (timetable_at gate.now) entry
        judged.entered (view pass.old) (view pass.new)) }
    ensures found { IfOk result (λ judged.
        judged.found ≡ length (view pass.new).found.list) }
    ensures reached { IfOk result (λ _. IsReached after (view pass.new).found.list) }
    ensures stopped { IfErr result (λ halt.
        IsStopped (timetable_at gate.now) entry halt after (view pass.old) (view pass.new)) }
{
    let mut held = open_turn(rt, gate, pass, after)?;
    let found = held.book().front();
    let entered = enter_in(alloc, held.book(), entry);
    gate.leave(pass, held);
    let entered = entered?;
    Ok(Judged { entered, found })
}

/// A turn that judges an entry whose path was searched for beside the client's copy, and
/// takes it in where it is fresh and its record has room. What came since the copy's front is
/// told apart where it clashes.
pub fn try_entry<R: Wait, D: Disk>(
    rt: &R,
    alloc: Global,
    gate: &Gate<Book<D>>,
    pass: &mut Pass<Book<D>>,
    client: &mut Client,
    entry: Entry,
) -> Result<Tried, Halt>
    requires ready { IsReady gate.now pass.old }
    requires budget { 1 ≤ turns_left pass.old }
    requires knows { Knows (timetable_at gate.now) client.old (view pass.old).seen }
    requires range { IsInRange (timetable_at gate.now) entry }
    ensures ready { IsReady gate.now pass.new }
    ensures name { client.new.name ≡ client.old.name }
    ensures knows { Knows (timetable_at gate.now) client.new (view pass.new).seen }
    ensures budget { turns_left pass.new + 1 ≡ turns_left pass.old }
    ensures tried { IfOk result (λ tried. HasTried (timetable_at gate.now) entry client.old.front
        tried (view pass.old) (view pass.new)) }
    ensures copy { IfOk result (λ _.
        IsCopyOf (timetable_at gate.now) client.new (view pass.new).found.list) }
    ensures stopped { IfErr result (λ halt.
        IsStopped (timetable_at gate.now) entry halt None (view pass.old) (view pass.new)) }
{
    let searched = client.front;
    let mut held = open_known(rt, gate, pass, client, None)?;
    let tried = try_in(alloc, held.book(), entry, searched);
    gate.leave(pass, held);
    let tried = tried?;
    Ok(tried)
}
