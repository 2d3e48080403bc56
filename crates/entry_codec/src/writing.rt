//! An entry's body written.

ghost use Rattle.rail_types.specs.declared.paths.Claim.{Claim as claim_type};
ghost use Rattle.rail_types.specs.declared.entries.Deed.TheVariants.{Grant, Hold};
ghost use Rattle.rail_types.specs.declared.entries.Wanted.TheVariants.{Asked};
ghost use Rattle.std.specs.Prelude.{◌≡◌, List as list_of, ◌+◌, ◌*◌, ◌^◌, ◌<◌, ◌≤◌, ◌++◌, ◌∷◌, []};
ghost use Rattle.std.specs.Prelude.{length, All, OnOk, OnErr, IsOk};
ghost use Rattle.std.specs.List.{flat_map};
ghost use Rattle.std.specs.Int.{w32, w64, to_be_bytes};
ghost use Rattle.byte_fields.specs.Unread.{signed_bytes};
ghost use Rattle.entry_codec.specs.Body.{body_of, flag_byte, kind_byte, deed_text, hold_text};
ghost use Rattle.entry_codec.specs.Body.{name_text, train_text, claim_text, window_text, wish_text};
ghost use Rattle.entry_codec.specs.Body.{stop_text, run_text, list_text};
ghost use Rattle.rail_types.specs.Limits.{IsEntryWithinLimits, IsDeedWithinLimits};
ghost use Rattle.rail_types.specs.Limits.{IsHoldWithinLimits};
ghost use Rattle.entry_codec.specs.Within.{HasBody, IsFourBytes, IsWishOfItsTypes};
ghost use Rattle.entry_codec.specs.Within.{IsDeedOfItsTypes};

use byte_fields::{Buffer, put_bytes, put_i64, put_u8, put_u32, put_u64};
use no_memory::NoMemory;
use rail_types::{
    Claim, Claims, Deed, Entry, Name, Path, Request, Run, Stop, Tick, Train, Wanted, Window,
};

// The calls below find the room that `write` makes first, so that none takes memory.

fn add_byte(to: &mut Buffer, byte: u8)
    requires { 1 ≤ to.old.spare }
    ensures held { to.new.held ≡ to.old.held ++ byte ∷ [] }
    ensures spare { to.old.spare ≤ to.new.spare + 1 }
{
    let Ok(()) = put_u8(to, byte) else {
        unreachable!()
    };
}

fn add_number(to: &mut Buffer, number: u32)
    requires { 4 ≤ to.old.spare }
    ensures held { to.new.held ≡ to.old.held ++ to_be_bytes w32 number }
    ensures spare { to.old.spare ≤ to.new.spare + 4 }
{
    let Ok(()) = put_u32(to, number) else {
        unreachable!()
    };
}

fn add_long_number(to: &mut Buffer, number: u64)
    requires { 8 ≤ to.old.spare }
    ensures held { to.new.held ≡ to.old.held ++ to_be_bytes w64 number }
    ensures spare { to.old.spare ≤ to.new.spare + 8 }
{
    let Ok(()) = put_u64(to, number) else {
        unreachable!()
    };
}

#[tactic(auto, using(crate::proofs::Fields::passed))]
fn add_tick(to: &mut Buffer, tick: &Tick)
    requires { 8 ≤ to.old.spare }
    ensures held { to.new.held ≡ to.old.held ++ signed_bytes tick.now }
    ensures spare { to.old.spare ≤ to.new.spare + 8 }
{
    let Ok(()) = put_i64(to, *tick) else {
        unreachable!()
    };
}

fn add_bytes(to: &mut Buffer, bytes: &[u8])
    requires { length bytes.now ≤ to.old.spare }
    ensures held { to.new.held ≡ to.old.held ++ bytes.now }
    ensures spare { to.old.spare ≤ to.new.spare + length bytes.now }
    ensures bytes { All (λ byte. byte < 2 ^ 8) bytes.now }
{
    let Ok(()) = put_bytes(to, bytes) else {
        unreachable!()
    };
}

fn add_name(to: &mut Buffer, name: &Name)
    requires short { length name.now < 256 }
    requires room { 1 + length name.now ≤ to.old.spare }
    ensures held { to.new.held ≡ to.old.held ++ name_text name.now }
    ensures spare { to.old.spare ≤ to.new.spare + (1 + length name.now) }
    ensures bytes { All (λ byte. byte < 2 ^ 8) name.now }
{
    let bytes = name.as_bytes();
    add_byte(to, bytes.len() as u8);
    add_bytes(to, bytes);
}

fn add_window(to: &mut Buffer, window: &Window)
    requires { 16 ≤ to.old.spare }
    ensures held { to.new.held ≡ to.old.held ++ window_text window.now }
    ensures spare { to.old.spare ≤ to.new.spare + 16 }
{
    add_tick(to, &window.from);
    add_tick(to, &window.to);
}

fn add_claim(to: &mut Buffer, claim: &Claim)
    requires { 20 ≤ to.old.spare }
    ensures held { to.new.held ≡ to.old.held ++ claim_text claim.now }
    ensures spare { to.old.spare ≤ to.new.spare + 20 }
    ensures typed { IsFourBytes claim.now.zone }
{
    add_number(to, claim.zone);
    add_tick(to, &claim.span.from);
    add_tick(to, &claim.span.to);
}

fn add_train(to: &mut Buffer, train: &Train)
    requires short { length train.now.name < 256 }
    requires room { 21 + length train.now.name ≤ to.old.spare }
    ensures held { to.new.held ≡ to.old.held ++ train_text train.now }
    ensures spare { to.old.spare ≤ to.new.spare + (21 + length train.now.name) }
{
    add_name(to, &train.name);
    add_number(to, train.length_m);
    add_number(to, train.speed);
    add_number(to, train.accel);
    add_number(to, train.brake);
    add_number(to, train.allowance);
}

fn add_stop(to: &mut Buffer, stop: &Stop)
    requires { 8 ≤ to.old.spare }
    ensures held { to.new.held ≡ to.old.held ++ stop_text stop.now }
    ensures spare { to.old.spare ≤ to.new.spare + 8 }
    ensures typed { IsFourBytes stop.now.stop }
{
    add_number(to, stop.stop);
    add_number(to, stop.dwell);
}

fn flag(stops: bool) -> u8
    ensures { result ≡ flag_byte stops }
{
    u8::from(stops)
}

fn add_run(to: &mut Buffer, run: &Run)
    requires { 21 ≤ to.old.spare }
    ensures held { to.new.held ≡ to.old.held ++ run_text run.now }
    ensures spare { to.old.spare ≤ to.new.spare + 21 }
    ensures typed { IsFourBytes run.now.block }
{
    add_number(to, run.block);
    add_tick(to, &run.enter);
    add_tick(to, &run.leave);
    add_byte(to, flag(run.stops));
}

fn add_stops(to: &mut Buffer, stops: &[Stop])
    requires count { length stops.now < 2 ^ 32 }
    requires room { 4 + 8 * length stops.now ≤ to.old.spare }
    ensures held { to.new.held ≡ to.old.held ++ list_text stop_text stops.now }
    ensures spare { to.old.spare ≤ to.new.spare + (4 + 8 * length stops.now) }
    ensures typed { All (λ stop. IsFourBytes stop.stop) stops.now }
{
    add_number(to, stops.len() as u32);
    for stop in stops {
        add_stop(to, stop);
    }
}

fn add_runs(to: &mut Buffer, runs: &[Run])
    requires count { length runs.now < 2 ^ 32 }
    requires room { 4 + 21 * length runs.now ≤ to.old.spare }
    ensures held { to.new.held ≡ to.old.held ++ list_text run_text runs.now }
    ensures spare { to.old.spare ≤ to.new.spare + (4 + 21 * length runs.now) }
    ensures typed { All (λ run. IsFourBytes run.block) runs.now }
{
    add_number(to, runs.len() as u32);
    for run in runs {
        add_run(to, run);
    }
}

// A request but for its train.
fn add_wish(to: &mut Buffer, request: &Request)
    requires count { length request.now.stops < 2 ^ 32 }
    requires room { 44 + 8 * length request.now.stops ≤ to.old.spare }
    ensures held { to.new.held ≡ to.old.held ++ wish_text request.now }
    ensures spare { to.old.spare ≤ to.new.spare + (44 + 8 * length request.now.stops) }
    ensures typed { IsWishOfItsTypes request.now }
{
    add_number(to, request.origin);
    add_number(to, request.destination);
    add_window(to, &request.depart);
    add_window(to, &request.arrive);
    add_stops(to, request.stops.as_slice());
}

fn add_claims(to: &mut Buffer, claims: &[Claim])
    requires { 20 * length claims.now ≤ to.old.spare }
    ensures held { to.new.held ≡ to.old.held ++ flat_map claim_text claims.now }
    ensures spare { to.old.spare ≤ to.new.spare + 20 * length claims.now }
    ensures typed { All (λ claim. IsFourBytes claim.zone) claims.now }
{
    for claim in claims {
        add_claim(to, claim);
    }
}

fn hold_len(claims: &Claims, reason: &Name) -> usize
    requires { IsHoldWithinLimits claims.now reason.now }
    ensures length { result ≡ length (hold_text claims.now reason.now) }
    ensures small { result < 2 ^ 16 }
{
    let reason = reason.as_bytes();
    if reason.is_empty() {
        20 * claims.len()
    } else {
        5 + reason.len() + 20 * claims.len()
    }
}

fn add_hold(to: &mut Buffer, claims: &Claims, reason: &Name)
    requires limits { IsHoldWithinLimits claims.now reason.now }
    requires room { length (hold_text claims.now reason.now) ≤ to.old.spare }
    ensures held { to.new.held ≡ to.old.held ++ hold_text claims.now reason.now }
    ensures spare { to.old.spare ≤ to.new.spare + length (hold_text claims.now reason.now) }
    ensures typed { All (λ claim. IsFourBytes claim.zone) claims.now }
    ensures bytes { All (λ byte. byte < 2 ^ 8) reason.now }
{
    if reason.as_bytes().is_empty() {
        add_claims(to, claims.as_slice());
    } else {
        add_name(to, reason);
        add_number(to, claims.len() as u32);
        add_claims(to, claims.as_slice());
    }
}

#[tactic(auto, using(crate::proofs::Appends::deed_lengths))]
fn deed_len(deed: &Deed) -> usize
    requires { IsDeedWithinLimits deed.now }
    ensures length { result ≡ length (deed_text deed.now) }
    ensures small { result < 2 ^ 40 }
{
    match deed {
        Deed::Hold(claims, reason) => hold_len(claims, reason),
        Deed::Grant(Wanted::Asked(request), path) => {
            let stops = request.get().stops.len();
            69 + path.train.name.as_bytes().len() + 8 * stops + 21 * path.runs.len()
        }
        Deed::Grant(Wanted::Pinned, path) => {
            25 + path.train.name.as_bytes().len() + 21 * path.runs.len()
        }
        Deed::Free(_) => 8,
    }
}

// A path with the request that it answers.
#[tactic(auto, using(crate::proofs::Appends::deed_lengths))]
fn add_asked(to: &mut Buffer, request: &Request, path: &Path)
    requires limits { IsDeedWithinLimits (Grant (Asked request.now) path.now) }
    requires room { length (deed_text (Grant (Asked request.now) path.now)) ≤ to.old.spare }
    ensures held { to.new.held
        ≡ to.old.held ++ deed_text (Grant (Asked request.now) path.now) }
    ensures spare { to.old.spare
        ≤ to.new.spare + length (deed_text (Grant (Asked request.now) path.now)) }
    ensures typed { IsDeedOfItsTypes (Grant (Asked request.now) path.now) }
{
    add_train(to, &path.train);
    add_wish(to, request);
    add_runs(to, path.runs.as_slice());
}

#[tactic(auto, using(crate::proofs::Appends::deed_lengths))]
fn add_deed(to: &mut Buffer, deed: &Deed)
    requires limits { IsDeedWithinLimits deed.now }
    requires room { length (deed_text deed.now) ≤ to.old.spare }
    ensures held { to.new.held ≡ to.old.held ++ deed_text deed.now }
    ensures spare { to.old.spare ≤ to.new.spare + length (deed_text deed.now) }
    ensures typed { IsDeedOfItsTypes deed.now }
{
    match deed {
        Deed::Hold(claims, reason) => add_hold(to, claims, reason),
        Deed::Grant(Wanted::Asked(request), path) => add_asked(to, request.get(), path),
        Deed::Grant(Wanted::Pinned, path) => {
            add_train(to, &path.train);
            add_runs(to, path.runs.as_slice());
        }
        Deed::Free(entry) => add_long_number(to, *entry),
    }
}

// What a body's first byte says of a hold for a reason.
fn hold_kind(reason: &Name) -> u8
    ensures { (claims : list_of claim_type) → result ≡ kind_byte (Hold claims reason.now) }
{
    let plain = reason.as_bytes().is_empty();
    if plain { 1 } else { 5 }
}

// What a body's first byte says of the deed.
fn kind(deed: &Deed) -> u8
    ensures { result ≡ kind_byte deed.now }
{
    match deed {
        Deed::Hold(_, reason) => hold_kind(reason),
        Deed::Grant(Wanted::Asked(_), _) => 2,
        Deed::Grant(Wanted::Pinned, _) => 3,
        Deed::Free(_) => 4,
    }
}

#[tactic(auto, using(crate::proofs::Appends::body_length))]
fn add_entry(to: &mut Buffer, entry: &Entry)
    requires limits { IsEntryWithinLimits entry.now }
    requires room { length (body_of entry.now) ≤ to.old.spare }
    ensures held { to.new.held ≡ to.old.held ++ body_of entry.now }
    ensures spare { to.old.spare ≤ to.new.spare + length (body_of entry.now) }
    ensures typed { HasBody entry.now }
{
    add_byte(to, kind(&entry.deed));
    add_long_number(to, entry.number);
    add_number(to, entry.line);
    add_name(to, &entry.owner);
    add_deed(to, &entry.deed);
}

/// How many bytes the body of an entry has, which `write` would append.
#[tactic(auto, using(crate::proofs::Appends::body_length))]
pub fn body_len(entry: &Entry) -> usize
    requires { IsEntryWithinLimits entry.now }
    ensures { result ≡ length (body_of entry.now) }
{
    14 + entry.owner.as_bytes().len() + deed_len(&entry.deed)
}

/// Appends the body of an entry. For want of memory nothing changes; where the body
/// has room no memory is taken.
///
/// The entry is within the limits that a reader of client lines keeps: a client's name, ticks and
/// numbers in range, a pinned path of 1 to 4,096 runs, and for a request that was asked a path of
/// its train with at least one run. An entry outside them has no body, so it isn't written, though
/// its path be one that a horizon holds.
pub fn write(entry: &Entry, to: &mut Buffer) -> Result<(), NoMemory>
    requires { IsEntryWithinLimits entry.now }
    ensures ok { OnOk result (to.new.held ≡ to.old.held ++ body_of entry.now) }
    ensures err { OnErr result (to.new ≡ to.old) }
    ensures room { length (body_of entry.now) ≤ to.old.spare → IsOk result }
    ensures spare { to.old.spare ≤ to.new.spare + length (body_of entry.now) }
    // What is written is a body, so that it is read back.
    ensures has { OnOk result (HasBody entry.now) }
{
    to.reserve(body_len(entry))?;
    add_entry(to, entry);
    Ok(())
}
