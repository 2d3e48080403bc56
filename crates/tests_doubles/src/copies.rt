//! Copies of the live claims, brought up by the entries since, beside copies made anew.

ghost use Rattle.std.specs.Prelude.{◌≡◌, IfSome};
ghost use Rattle.path_commit.specs.Runs.{AreInRange, Grows};
ghost use Rattle.rail_types.specs.Timetables.{Timetable};

use crate::books::{empty_book, sent_on};
use grant_log::copy_since::copy_of;
use no_memory::NoMemory;
use occupation_book::{Occupations, ZoneClaims};
use outside_io::{Disk, MemDisk};
use path_commit::{Book, Sent, run_all};
use rail_types::{Claim, Network, Owner};
use std::alloc::Global;

// Puts an entry behind others, where it is on a network.
#[tactic(auto, using(crate::proofs::Brought::one_more))]
fn push_sent(alloc: Global, net: &Network, body: &[u8], all: &mut Vec<Sent>) -> bool
    ensures { (timetable : Timetable) → timetable.net ≡ net.now →
        AreInRange timetable all.old.items → AreInRange timetable all.new.items }
{
    let Some(sent) = sent_on(alloc, net, body) else {
        return false;
    };
    let Ok(()) = all.push(sent) else {
        return false;
    };
    true
}

// The entries of bodies, where each is on a network.
fn all_sent(alloc: Global, net: &Network, bodies: &[Vec<u8>]) -> Option<Vec<Sent>>
    ensures { IfSome result (λ all. (timetable : Timetable) → timetable.net ≡ net.now →
        AreInRange timetable all.items) }
{
    let mut all = Vec::new(alloc);
    for body in bodies {
        if !push_sent(alloc, net, body, &mut all) {
            return None;
        }
    }
    Some(all)
}

// Sends the entries of bodies to a book, whatever they are told.
fn send_all<D: Disk>(alloc: Global, book: &mut Book<D>, bodies: &[Vec<u8>]) -> bool
    ensures { Grows book.old book.new }
{
    match all_sent(alloc, book.history().net(), bodies) {
        Some(sent) => run_all(alloc, book, &sent).is_ok(),
        None => false,
    }
}

// A copy of the live claims of now, brought up once the entries of bodies were sent.
fn brought_up<D: Disk>(
    alloc: Global,
    book: &mut Book<D>,
    bodies: &[Vec<u8>],
) -> Option<Occupations> {
    let Ok(mut copy) = copy_of(alloc, book.history()) else {
        return None;
    };
    let front = book.front();
    if !send_all(alloc, book, bodies) {
        return None;
    }
    match book.since(front, &mut copy) {
        Ok(()) => Some(copy),
        Err(NoMemory) => None,
    }
}

fn are_same(one: &Occupations, other: &Occupations) -> bool {
    for zone in 0..one.zones() {
        if other.zones() <= zone || !have_same(one.of_zone(zone), other.of_zone(zone)) {
            return false;
        }
    }
    true
}

// Whether the claims of two zones are the same, with their owners.
fn have_same(one: &ZoneClaims, other: &ZoneClaims) -> bool {
    if one.len() != other.len() {
        return false;
    }
    for at in 0..one.len() {
        if one.claim_at(at) != other.claim_at(at) {
            return false;
        }
    }
    true
}

fn is_as_anew<D: Disk>(alloc: Global, book: &Book<D>, copy: &Occupations) -> bool {
    match copy_of(alloc, book.history()) {
        Ok(anew) => are_same(copy, &anew) && are_same(&anew, copy),
        Err(NoMemory) => false,
    }
}

/// A book that was sent the first of these bodies and then the others, and a copy from in between,
/// where it is as one made anew in the end.
pub fn copied_since(
    alloc: Global,
    before: &[Vec<u8>],
    since: &[Vec<u8>],
) -> Option<(Book<MemDisk>, Occupations)> {
    let Some(mut book) = empty_book(alloc, 100_000) else {
        return None;
    };
    if !send_all(alloc, &mut book, before) {
        return None;
    }
    match brought_up(alloc, &mut book, since) {
        Some(copy) if is_as_anew(alloc, &book, &copy) => Some((book, copy)),
        _ => None,
    }
}

/// The claims of such a copy.
pub fn claims_since(
    alloc: Global,
    before: &[Vec<u8>],
    since: &[Vec<u8>],
) -> Option<Vec<(Claim, Owner)>> {
    match copied_since(alloc, before, since) {
        Some((_book, copy)) => copy.claims(alloc).ok(),
        None => None,
    }
}
