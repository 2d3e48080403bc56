//! Deeds by chance, the same at each run.

use crate::copies::copied_since;
use no_memory::NoMemory;
use std::alloc::Global;

// The number behind another one, as if by chance.
fn next_number(number: u64) -> u64 {
    number
        .wrapping_mul(6_364_136_223_846_793_005)
        .wrapping_add(1_442_695_040_888_963_407)
}

// Puts bytes behind others, one piece after another.
fn push_all(body: &mut Vec<u8>, pieces: &[&[u8]]) -> Result<(), NoMemory> {
    for piece in pieces {
        body.extend_from_slice(piece)?;
    }
    Ok(())
}

// The body of an entry of client A at this position: its kind, number and line, and these pieces.
fn body(alloc: Global, kind: u8, at: u64, pieces: &[&[u8]]) -> Result<Vec<u8>, NoMemory> {
    let number = at.saturating_add(1).to_be_bytes();
    let line = ((at % 65_536) as u32).to_be_bytes();
    let mut body = Vec::new(alloc);
    push_all(&mut body, &[&[kind], &number, &line, &[1, 65]])?;
    push_all(&mut body, pieces)?;
    Ok(body)
}

// The body of a hold of a zone for some ticks.
fn hold(alloc: Global, at: u64, zone: u32, from: u64, ticks: u64) -> Result<Vec<u8>, NoMemory> {
    let until = from.saturating_add(ticks).to_be_bytes();
    body(
        alloc,
        1,
        at,
        &[&zone.to_be_bytes(), &from.to_be_bytes(), &until],
    )
}

// The body of a deed that frees an entry.
fn freeing(alloc: Global, at: u64, freed: u64) -> Result<Vec<u8>, NoMemory> {
    body(alloc, 4, at, &[&freed.to_be_bytes()])
}

// A deed by chance: three of four hold a zone for up to 30 ticks, the fourth frees
// an entry before it, if it may.
fn deed(alloc: Global, at: u64) -> Result<Vec<u8>, NoMemory> {
    let chance = next_number(next_number(at)) >> 33;
    let rest = chance / 4;
    if chance % 4 == 0 {
        freeing(alloc, at, rest % at.max(1))
    } else {
        hold(
            alloc,
            at,
            (rest % 3) as u32,
            rest / 3 % 60_000,
            1 + rest / 180_000 % 30,
        )
    }
}

// The bodies of the deeds from one number to another.
fn deeds(alloc: Global, from: u64, to: u64) -> Result<Vec<Vec<u8>>, NoMemory> {
    let mut all = Vec::new(alloc);
    for at in from..to {
        all.push(deed(alloc, at)?)?;
    }
    Ok(all)
}

/// How many entries so many deeds give, where a copy from behind the first of them is
/// as one made anew in the end.
pub fn entries_from(alloc: Global, first: u64, count: u64) -> Option<u64> {
    let (Ok(before), Ok(since)) = (deeds(alloc, 0, first), deeds(alloc, first, count)) else {
        return None;
    };
    match copied_since(alloc, &before, &since) {
        Some((book, _copy)) => Some(book.front()),
        None => None,
    }
}
