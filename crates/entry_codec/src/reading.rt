//! An entry read from its body.

ghost use Rattle.entry_codec.specs.Places.{IsWrongAt, bytes_of, fields_of};
ghost use Rattle.std.specs.Prelude.{All, true, ◌≡◌, ◌≢◌, ℕ, ◌^◌, ◌<◌, List, [], ◌∷◌, ◌++◌, length};
ghost use Rattle.std.specs.Prelude.{take, Ok, Err, IfOk, IfErr};
ghost use Rattle.std.specs.List.{list_all};
ghost use Rattle.rail_types.specs.declared.entries.Entry.{Entry as entry_type};
ghost use Rattle.rail_types.specs.Limits.{is_name_byte};
ghost use Rattle.rail_types.specs.declared.entries.Deed.TheVariants.{Hold};
ghost use Rattle.entry_codec.specs.declared.faults.EntryFault.TheVariants.{NotEntry};
ghost use Rattle.entry_codec.specs.Body.{body_of};
ghost use Rattle.entry_codec.specs.Within.{HasBody, HasItsTrain, IsFormed};
ghost use Rattle.entry_codec.specs.Reading.{Gives, before_all, claims_field, reasoned_field};
ghost use Rattle.entry_codec.specs.Reading.{owner_field, items_field, list_field, stop_field};
ghost use Rattle.entry_codec.specs.Reading.{run_field, asked_field, pinned_field, deed_field};
ghost use Rattle.entry_codec.specs.Reading.{entry_field, entry_at, GivesAll, Refuses};
ghost use Rattle.entry_codec.specs.Examples.{hold, hold_body, reasoned, reasoned_body, free};
ghost use Rattle.entry_codec.specs.Examples.{free_body, pinned, pinned_body, asked, asked_body};
ghost use Rattle.entry_codec.specs.Examples.{with_bytes, last_tick, tick_behind_the_last};
ghost use Rattle.entry_codec.specs.Examples.{zone_0_from_9};

use crate::faults::EntryFault;
use crate::finding::{
    find_claim, find_kind, find_limited, find_next_claim, find_number, find_owner, find_position,
    find_reason, find_run, find_stop, find_train, find_window,
};
use crate::kinds::Kind;
use crate::passing::{before_all, pass_all};
use byte_fields::Fields;
use rail_types::{
    Claim, Claims, Deed, Entry, KeptRequest, List, MAX_HOLD_CLAIMS, MAX_OWNER_BYTES,
    MAX_PINNED_RUNS, MAX_STOPS, Name, Path, Request, Run, Stop, Wanted,
};
use std::alloc::Global;

// The calls below read a body that was passed over, so that the counts of its lists are those of
// elements that are there, and room is asked for no more.

fn read_owner(alloc: Global, fields: &mut Fields) -> Result<Name, EntryFault>
    ensures { Gives fields.new result (owner_field fields.old) }
{
    let name = find_owner(fields)?;
    Ok(Name::from_bytes(alloc, name)?)
}

fn read_claims(alloc: Global, fields: &mut Fields, count: u32) -> Result<Claims, EntryFault>
    ensures { Gives fields.new result (claims_field count before_all fields.old) }
{
    let mut claims = Vec::with_capacity(alloc, count as usize)?;
    let mut before = before_all();
    for _ in 0..count {
        before = find_next_claim(fields, &before)?;
        claims.push(before)?;
    }
    Ok(Claims::from_list(List::from_vec(claims)))
}

fn read_stop_items(alloc: Global, fields: &mut Fields, count: u32) -> Result<List<Stop>, EntryFault>
    ensures { Gives fields.new result (items_field stop_field count fields.old) }
{
    let mut stops = Vec::with_capacity(alloc, count as usize)?;
    for _ in 0..count {
        let item = find_stop(fields)?;
        stops.push(item)?;
    }
    Ok(List::from_vec(stops))
}

fn read_run_items(alloc: Global, fields: &mut Fields, count: u32) -> Result<List<Run>, EntryFault>
    ensures { Gives fields.new result (items_field run_field count fields.old) }
{
    let mut runs = Vec::with_capacity(alloc, count as usize)?;
    for _ in 0..count {
        let item = find_run(fields)?;
        runs.push(item)?;
    }
    Ok(List::from_vec(runs))
}

#[tactic(auto, unfolding(crate::specs::Reading::list_field))]
fn read_stops(alloc: Global, fields: &mut Fields) -> Result<List<Stop>, EntryFault>
    ensures { Gives fields.new result (list_field 0 MAX_STOPS stop_field fields.old) }
{
    let count = find_limited(fields, 0, MAX_STOPS)?;
    read_stop_items(alloc, fields, count)
}

#[tactic(auto, unfolding(crate::specs::Reading::list_field))]
fn read_runs(alloc: Global, fields: &mut Fields, most: u32) -> Result<List<Run>, EntryFault>
    ensures { Gives fields.new result (list_field 1 most run_field fields.old) }
{
    let count = find_limited(fields, 1, most)?;
    read_run_items(alloc, fields, count)
}

#[tactic(auto, unfolding(crate::specs::Reading::reasoned_field))]
fn read_reasoned(alloc: Global, fields: &mut Fields) -> Result<Deed, EntryFault>
    ensures { Gives fields.new result (reasoned_field fields.old) }
{
    let reason = find_reason(fields)?;
    let count = find_limited(fields, 1, MAX_HOLD_CLAIMS)?;
    let claims = read_claims(alloc, fields, count)?;
    Ok(Deed::Hold(claims, Name::from_bytes(alloc, reason)?))
}

#[tactic(auto, unfolding(crate::specs::Reading::asked_field))]
fn read_asked(alloc: Global, fields: &mut Fields) -> Result<Deed, EntryFault>
    ensures { Gives fields.new result (asked_field fields.old) }
{
    let train = find_train(fields)?;
    let origin = find_number(fields)?;
    let destination = find_number(fields)?;
    let depart = find_window(fields)?;
    let arrive = find_window(fields)?;
    let stops = read_stops(alloc, fields)?;
    let runs = read_runs(alloc, fields, u32::MAX)?;
    let request = Request {
        train: train.keep(alloc)?,
        origin,
        destination,
        depart,
        arrive,
        stops,
    };
    let train = train.keep(alloc)?;
    let request = KeptRequest::new(alloc, request)?;
    Ok(Deed::Grant(Wanted::Asked(request), Path { train, runs }))
}

#[tactic(auto, unfolding(crate::specs::Reading::pinned_field))]
fn read_pinned(alloc: Global, fields: &mut Fields) -> Result<Deed, EntryFault>
    ensures { Gives fields.new result (pinned_field fields.old) }
{
    let train = find_train(fields)?;
    let runs = read_runs(alloc, fields, MAX_PINNED_RUNS)?;
    let train = train.keep(alloc)?;
    Ok(Deed::Grant(Wanted::Pinned, Path { train, runs }))
}

// A hold without a reason, which has one claim.
fn plain_hold(alloc: Global, claim: &Claim) -> Deed
    ensures { result ≡ Hold (claim.now ∷ []) [] }
{
    Deed::Hold(Claims::one(alloc, *claim), Name::empty(alloc))
}

#[tactic(auto, unfolding(crate::specs::Reading::deed_field))]
fn read_deed(alloc: Global, fields: &mut Fields, kind: Kind) -> Result<Deed, EntryFault>
    ensures { Gives fields.new result (deed_field kind fields.old) }
{
    match kind {
        Kind::Hold => {
            let claim = find_claim(fields)?;
            Ok(plain_hold(alloc, &claim))
        }
        Kind::Asked => read_asked(alloc, fields),
        Kind::Pinned => read_pinned(alloc, fields),
        Kind::Free => Ok(Deed::Free(find_position(fields)?)),
        Kind::Reasoned => read_reasoned(alloc, fields),
    }
}

#[tactic(auto, unfolding(crate::specs::Reading::entry_field))]
fn read_entry(alloc: Global, fields: &mut Fields) -> Result<Entry, EntryFault>
    ensures { Gives fields.new result (entry_field fields.old) }
{
    let kind = find_kind(fields)?;
    let number = find_position(fields)?;
    let line = find_number(fields)?;
    let owner = read_owner(alloc, fields)?;
    let deed = read_deed(alloc, fields, kind)?;
    Ok(Entry {
        owner,
        number,
        line,
        deed,
    })
}

/// The entry with this body. Where no entry has it, the first field that is wrong is told by its
/// offset: a number out of range, a hold that doesn't end behind its begin, claims that are out of
/// order, overlap or touch, a flag other than 0 or 1, a name that is no client's or no text, bytes
/// that are missing or too many.
///
/// The body is passed over before any memory is taken, so that room is asked for only what stands
/// in it, and a body that is no entry's takes none.
pub fn read(alloc: Global, body: &[u8]) -> Result<Entry, EntryFault>
    // What is read has this body.
    ensures found { IfOk result (λ entry. HasBody entry × (body.now ≡ body_of entry)) }
    // An entry is read from its body, unless memory runs out.
    ensures only { (e : entry_type) → HasBody e → body.now ≡ body_of e → GivesAll result (Ok e) }
    // A body that is refused is that of no entry, and memory is wanted for an entry's body alone.
    ensures none { IfErr result (λ fault. Refuses fault body.now) }
    // What the body spells, or where the first wrong field begins.
    ensures place { GivesAll result (entry_at body.now) }
    // An entry of the form has the fields before it, all right; it is missing, or none
    // has a right one of its bytes.
    ensures first { (at : ℕ) → result ≡ Err (NotEntry at) → IsWrongAt body.now at }
    // Where it is wrong is told whatever memory there is.
    ensures wrong { (at : ℕ) → entry_at body.now ≡ Err at → result ≡ Err (NotEntry at) }
{
    pass_all(body)?;
    read_entry(alloc, &mut Fields::new(body))
}

/// No body has two entries, and none begins the body of another entry: whatever follows it, an
/// entry is told from its body.
pub fn one_entry()
    ensures apart { (a b : entry_type) (x y : List ℕ) → HasBody a → HasBody b
        → body_of a ++ x ≡ body_of b ++ y → (a ≡ b) × (x ≡ y) }
    // A body is read as its entry, and what is read as an entry is its body.
    ensures back { (e : entry_type) → HasBody e → entry_at (body_of e) ≡ Ok e }
    ensures spelled { (body : List ℕ) (e : entry_type) → All (λ byte. byte < 2 ^ 8) body
        → entry_at body ≡ Ok e → HasBody e × (body ≡ body_of e) }
{}

/// Where bytes of a body are missing, its refusal is placed at the end of those that are there;
/// where bytes stand behind a body, at the first of them.
///
/// The fields of an entry, by which the place of a wrong one is told, are
/// those of its body, and are right.
pub fn refusals_are_placed()
    ensures fields { (entry : entry_type) → bytes_of (fields_of entry) ≡ body_of entry }
    ensures right { (e : entry_type) → HasBody e → All (λ field. field.right ≡ true) (fields_of e) }
    ensures missing { (e : entry_type) (count : ℕ) → HasBody e → count < length (body_of e)
        → entry_at (take count (body_of e)) ≡ Err count }
    ensures surplus { (entry : entry_type) (rest : List ℕ) → HasBody entry → rest ≢ []
        → entry_at (body_of entry ++ rest) ≡ Err (length (body_of entry)) }
{}

/// Where a body is wrong by its fields is one place at most, and none in the body of an entry; what
/// reading tells is wrong there.
///
/// An entry of the form whose fields are right has a body, so that no field is called
/// right for which no limit stands.
pub fn wrong_place_is_one()
    ensures one { (body : List ℕ) (a b : ℕ) → IsWrongAt body a → IsWrongAt body b → a ≡ b }
    ensures never { (e : entry_type) (at : ℕ) → HasBody e → IsWrongAt (body_of e) at → ⊥ }
    ensures told { (body : List ℕ) (at : ℕ) → All (λ byte. byte < 2 ^ 8) body
        → entry_at body ≡ Err at → IsWrongAt body at }
    ensures full { (e : entry_type) → IsFormed e → HasItsTrain e.deed
        → All (λ field. field.right ≡ true) (fields_of e) → HasBody e }
{}

/// Bodies that were written out by hand are those of their entries, one of each kind; and where
/// bytes in their place are wrong.
pub fn examples_have_their_bodies()
    ensures hold { HasBody hold × (body_of hold ≡ hold_body) }
    ensures reasoned { HasBody reasoned × (body_of reasoned ≡ reasoned_body) }
    ensures free { HasBody free × (body_of free ≡ free_body) }
    ensures pinned { HasBody pinned × (body_of pinned ≡ pinned_body) }
    ensures asked { HasBody asked × (body_of asked ≡ asked_body) }
    // A hold from 38 to 38; one from the last tick, behind which no end is a tick.
    ensures no_ticks { entry_at (with_bytes hold_body 34 (38 ∷ [])) ≡ Err 27 }
    ensures last { entry_at (with_bytes hold_body 19 (last_tick ++ tick_behind_the_last)) ≡ Err 27 }
    ensures kind { entry_at (with_bytes hold_body 0 (0 ∷ [])) ≡ Err 0 }
    ensures no_reason { entry_at (with_bytes reasoned_body 15 (0 ∷ [])) ≡ Err 15 }
    // A claim that begins where the one before it on its zone ends.
    ensures touches { entry_at (with_bytes reasoned_body 45 (zone_0_from_9 ++ last_tick)) ≡ Err 49 }
    ensures sign { entry_at (with_bytes free_body 16 (128 ∷ [])) ≡ Err 16 }
{}
