//! One entry that is carried, or left out.

ghost use Rattle.std.specs.Prelude.{◌≡◌, ◌+◌, ◌<◌, ◌^◌, All, None, IsTrue, ◌↔◌, OnOk, Some, length};
ghost use Rattle.std.specs.Prelude.{slice_get};
ghost use Rattle.path_recover.specs.journal.Histories.{bodies_of};
ghost use Rattle.path_recover.specs.history.Legal.{Joins};
ghost use Rattle.path_recover.specs.history.Live.{claims_of};
ghost use Rattle.path_recover.specs.history.Verdict.{breaks, taken_or_fresh as verdict_of, takes};
ghost use Rattle.path_recover.specs.history.Verdict.{verdict_on};
ghost use Rattle.carry_command.specs.Carried.{entries_at, IsLiveAt, IsReason};
ghost use Rattle.carry_command.specs.CarriedInside.{CarriesOn, HasCarried, IsNext};

use crate::carried_history::holding::{first_taken, hold_each};
use crate::carried_history::reasons::{LeftOut, Reason, reason_of};
use crate::spelling::push_record;
use byte_fields::Buffer;
use no_memory::NoMemory;
use path_recover::claims::Occupations;
use path_recover::history::{
    History, Verdict, claims_are_on_the_network, fresh_claims_are_free, live_claims_are_unfreed,
    live_claims_follow, verdicts_say_what_they_mean,
};
use rail_types::{Claim, Deed, Entry, Owner, first_clashes_are_first};

/// What was carried so far: the claims that are live in it, its journal up to the next gate, and
/// the positions that its entries had; and what was left out.
#[derive(Drop)]
pub(crate) struct Carrying {
    pub book: Occupations,
    pub file: Buffer,
    pub kept: Vec<u64>,
    pub left: Vec<LeftOut>,
}

// What is told by the first live claim that clashes, if there is one.
fn taken_or_fresh(first: Option<(Claim, Owner)>) -> Verdict
    ensures { result ≡ verdict_of first }
{
    match first {
        Some((claim, owner)) => Verdict::Taken(claim, owner),
        None => Verdict::Fresh,
    }
}

// Judges the next entry, which breaks no rule and has these claims, by what was carried.
fn judge(
    old: &History,
    empty: &History,
    at: u64,
    carrying: &Carrying,
    entry: &Entry,
    claims: &[Claim],
) -> Verdict
    requires next { IsNext empty.now.timetable old.now.entries at carrying.now entry.now }
    requires keeps { breaks empty.now.timetable entry.now.deed ≡ None }
    requires claims { claims.now ≡ claims_of empty.now.timetable entry.now.deed }
    ensures { result ≡ verdict_on empty.now.timetable
        (entries_at old.now.entries carrying.now.kept.items) entry.now }
{
    first_clashes_are_first();
    claims_are_on_the_network();
    empty.net();
    // What the book holds is apart, and so has one first, in whatever order it stands.
    carrying.book.zones();
    taken_or_fresh(first_taken(&carrying.book, claims))
}

// Whether a deed takes zones.
fn takes_zones(deed: &Deed) -> bool
    ensures { result ≡ takes deed.now }
{
    match deed {
        Deed::Hold(_, _) => true,
        Deed::Grant(_, _) => true,
        Deed::Free(_) => false,
    }
}

// Whether a live hold or grant stands at a position.
fn is_live(old: &History, at: u64, entry: &Entry) -> bool
    requires here { slice_get old.now.entries at ≡ Some entry.now }
    ensures { IsTrue result ↔ IsLiveAt old.now.entries at entry.now }
{
    takes_zones(&entry.deed) && old.freed_by(at).is_none()
}

// Carries an entry that is fresh, with these claims.
fn keep(
    old: &History,
    empty: &History,
    at: u64,
    carrying: &mut Carrying,
    entry: &Entry,
    claims: &[Claim],
) -> Result<(), NoMemory>
    requires next { IsNext empty.now.timetable old.now.entries at carrying.old entry.now }
    requires joins { Joins empty.now.timetable
        (entries_at old.now.entries carrying.old.kept.items) entry.now }
    requires claims { claims.now ≡ claims_of empty.now.timetable entry.now.deed }
    ensures { OnOk result (CarriesOn empty.now.timetable old.now.entries at carrying.old
        carrying.new) }
{
    verdicts_say_what_they_mean();
    claims_are_on_the_network();
    fresh_claims_are_free();
    live_claims_follow();
    empty.net();
    let place = carrying.kept.len() as u64;
    hold_each(&mut carrying.book, claims, place)?;
    push_record(entry, &mut carrying.file)?;
    carrying.kept.push(at)?;
    Ok(())
}

// Leaves an entry out for a reason.
fn leave(
    old: &History,
    empty: &History,
    at: u64,
    carrying: &mut Carrying,
    entry: &Entry,
    reason: Reason,
) -> Result<(), NoMemory>
    requires next { IsNext empty.now.timetable old.now.entries at carrying.old entry.now }
    requires reason { IsReason carrying.old.kept.items (verdict_on empty.now.timetable
        (entries_at old.now.entries carrying.old.kept.items) entry.now) reason }
    ensures { OnOk result (CarriesOn empty.now.timetable old.now.entries at carrying.old
        carrying.new) }
{
    carrying.left.push(LeftOut { at, reason })?;
    Ok(())
}

// Carries an entry that breaks no rule, with these claims, where they are free, or leaves it out.
fn carry_with(
    old: &History,
    empty: &History,
    at: u64,
    carrying: &mut Carrying,
    entry: &Entry,
    claims: &[Claim],
) -> Result<(), NoMemory>
    requires next { IsNext empty.now.timetable old.now.entries at carrying.old entry.now }
    requires keeps { breaks empty.now.timetable entry.now.deed ≡ None }
    requires claims { claims.now ≡ claims_of empty.now.timetable entry.now.deed }
    ensures { OnOk result (CarriesOn empty.now.timetable old.now.entries at carrying.old
        carrying.new) }
{
    verdicts_say_what_they_mean();
    live_claims_are_unfreed();
    let verdict = judge(old, empty, at, carrying, entry, claims);
    match reason_of(&carrying.kept, verdict) {
        None => keep(old, empty, at, carrying, entry, claims),
        Some(reason) => leave(old, empty, at, carrying, entry, reason),
    }
}

// Carries a live entry, or leaves it out.
fn carry_live(
    old: &History,
    empty: &History,
    at: u64,
    carrying: &mut Carrying,
    entry: &Entry,
) -> Result<(), NoMemory>
    requires next { IsNext empty.now.timetable old.now.entries at carrying.old entry.now }
    ensures { OnOk result (CarriesOn empty.now.timetable old.now.entries at carrying.old
        carrying.new) }
{
    verdicts_say_what_they_mean();
    if let Some(rule) = empty.breaks(&entry.deed) {
        return leave(old, empty, at, carrying, entry, Reason::Breaks(rule));
    }
    match &entry.deed {
        // A hold has its claims with it.
        Deed::Hold(claims, _) => carry_with(old, empty, at, carrying, entry, claims.as_slice()),
        _ => {
            let claims = empty.claims_of(&entry.deed)?;
            carry_with(old, empty, at, carrying, entry, &claims)
        }
    }
}

/// Carries the entry at a position of a history behind those before it, where it is a live hold or
/// grant, or leaves it out.
pub(crate) fn carry_at(
    old: &History,
    empty: &History,
    at: u64,
    carrying: &mut Carrying,
) -> Result<(), NoMemory>
    requires within { at < length old.now.entries }
    requires net { empty.now.timetable.net ≡ old.now.timetable.net }
    requires short { All (λ body. length body < 2 ^ 32) (bodies_of old.now.entries) }
    requires carried { HasCarried empty.now.timetable old.now.entries at carrying.old }
    ensures { OnOk result (CarriesOn empty.now.timetable old.now.entries at carrying.old
        carrying.new) }
{
    verdicts_say_what_they_mean();
    old.front();
    let Some(entry) = old.entry(at) else {
        unreachable!()
    };
    if !is_live(old, at, entry) {
        return Ok(());
    }
    carry_live(old, empty, at, carrying, entry)
}
