//! A table's lines, one after another.

use crate::comparisons::Compared;
use crate::copies::claims_since;
use crate::deeds::entries_from;
use crate::made::{Trip, claim};
use crate::railway::Railway;
use crate::tallies::{Tally, draw_and_compare};
use crate::told::{claim_text, flaw_text, labels_text, places_text, told};
use crate::words::{first_word, no_memory, not_understood, numbers_of, size_of, small_of, tick_of};
use rail_types::{Claim, Owner, Stop};
use std::alloc::{AllocGlobal, Global};
use std::io;

/// Carries out a table, and prints what comes of it.
pub fn carry_out<R: AllocGlobal + Print>(rt: &R, lines: &str) -> io::Result<()> {
    let mut railway = Railway::new(rt.alloc(), 0);
    for line in lines.lines() {
        carry_out_line(rt, &mut railway, line)?;
    }
    Ok(())
}

fn carry_out_line<R: AllocGlobal + Print>(
    rt: &R,
    railway: &mut Railway,
    line: &str,
) -> io::Result<()> {
    let alloc = rt.alloc();
    let (word, rest) = first_word(line);
    match word {
        "" | "#" => Ok(()),
        "case" => println!(rt; "{rest}"),
        "network" => {
            *railway = Railway::new(alloc, small_of(rest)?);
            Ok(())
        }
        "flaw" => {
            let text = flaw_text(railway.net.check());
            println!(rt; "  {text}")
        }
        "places" | "labels" | "search" => {
            let text = asked(alloc, railway, word)?;
            println!(rt; "  {text}")
        }
        "draws" => print_draws(rt, rest),
        "deeds" => print_deeds(rt, rest),
        "since" => print_since(rt, rest),
        _ => set(alloc, railway, word, rest),
    }
}

// The numbers of a line, each of 32 bits.
fn smalls_of(alloc: Global, line: &str) -> io::Result<Vec<u32>> {
    let mut numbers = Vec::new(alloc);
    for word in line.split_whitespace() {
        numbers.push(small_of(word)?)?;
    }
    Ok(numbers)
}

// Sets a part of what is asked.
fn set(alloc: Global, railway: &mut Railway, word: &str, rest: &str) -> io::Result<()> {
    if word == "hold" {
        return hold(railway, rest);
    }
    let numbers = smalls_of(alloc, rest)?;
    match (word, numbers.as_slice()) {
        ("zones", [zones]) => railway.net.zones = *zones,
        ("train", [length_m, speed]) => {
            railway.length_m = *length_m;
            railway.speed = *speed;
        }
        ("settings", [setting, release, horizon, loss]) => {
            railway.setting = *setting;
            railway.release = *release;
            railway.horizon = *horizon;
            railway.has_loss = *loss == 1;
        }
        ("blocks", [long, wide, length_m, speed, sight_m, serves @ ..]) => {
            let sizes = [*length_m, *speed, *sight_m];
            return add_blocks(alloc, railway, *long, *wide, sizes, serves);
        }
        ("ask", [origin, destination, from, to, after, before, stops @ ..]) => {
            railway.trip = Trip {
                origin: *origin,
                destination: *destination,
                depart: (*from, *to),
                arrive: (*after, *before),
            };
            return set_stops(alloc, railway, stops);
        }
        _ => return Err(not_understood()),
    }
    Ok(())
}

// Puts so many times so many blocks side by side behind the last.
fn add_blocks(
    alloc: Global,
    railway: &mut Railway,
    long: u32,
    wide: u32,
    sizes: [u32; 3],
    serves: &[u32],
) -> io::Result<()> {
    for _ in 0..long {
        railway
            .add_blocks(alloc, wide, sizes, serves)
            .map_err(no_memory)?;
    }
    Ok(())
}

fn set_stops(alloc: Global, railway: &mut Railway, numbers: &[u32]) -> io::Result<()> {
    railway.stops = stops_of(alloc, numbers)?;
    Ok(())
}

// Stops with their dwells, from a list of both in turn.
fn stops_of(alloc: Global, numbers: &[u32]) -> io::Result<Vec<Stop>> {
    let mut stops = Vec::new(alloc);
    for pair in numbers.chunks(2) {
        stops.push(stop_of(pair)?)?;
    }
    Ok(stops)
}

fn stop_of(pair: &[u32]) -> io::Result<Stop> {
    match pair {
        [stop, dwell] => Ok(Stop {
            stop: *stop,
            dwell: *dwell,
        }),
        _ => Err(not_understood()),
    }
}

fn hold(railway: &mut Railway, line: &str) -> io::Result<()> {
    let (zone, rest) = first_word(line);
    let (from, to) = first_word(rest);
    let one = claim(small_of(zone)?, tick_of(from)?, tick_of(to)?);
    railway.claims.push(one)?;
    Ok(())
}

// What is answered to a request.
fn asked(alloc: Global, railway: &Railway, word: &str) -> io::Result<String> {
    match word {
        "places" => places_text(alloc, railway.count_places(alloc).map_err(no_memory)?),
        "labels" => labels_text(alloc, railway.count_labels(alloc).map_err(no_memory)?),
        _ => told(alloc, &railway.compare(alloc).map_err(no_memory)?),
    }
}

// Compares what is drawn by so many numbers, of which each kind is to be among them so often.
fn print_draws<R: AllocGlobal + Print>(rt: &R, line: &str) -> io::Result<()> {
    let numbers = smalls_of(rt.alloc(), line)?;
    let [count, asks, rings, losses, granted, waited, long] = numbers.as_slice() else {
        return Err(not_understood());
    };
    let least = Tally {
        asks: *asks,
        rings: *rings,
        losses: *losses,
        granted: *granted,
        waited: *waited,
        long: *long,
    };
    let mut tally = Tally::new();
    for number in 0..*count {
        let told = draw_and_compare(rt.alloc(), number, &mut tally).map_err(no_memory)?;
        print_difference(rt, number, &told)?;
    }
    if tally.is_as_many(&least) {
        println!(rt; "  as many of each kind as are wanted")
    } else {
        println!(rt; "  too few: {tally:?}")
    }
}

fn print_difference<R: AllocGlobal + Print>(
    rt: &R,
    number: u32,
    compared: &Compared,
) -> io::Result<()> {
    match compared {
        Compared::Differs(_, _) => {
            let text = told(rt.alloc(), compared)?;
            println!(rt; "  {number} {text}")
        }
        _ => Ok(()),
    }
}

// For each of so many parts of so many deeds, whether a copy from there is as one made anew, and
// more entries than so many join the history.
fn print_deeds<R: AllocGlobal + Print>(rt: &R, line: &str) -> io::Result<()> {
    let numbers = numbers_of(rt.alloc(), line)?;
    let [deeds, parts, more_than] = numbers.as_slice() else {
        return Err(not_understood());
    };
    for part in 0..*parts {
        let first = deeds.checked_div(*parts).unwrap_or(0).saturating_mul(part);
        match entries_from(rt.alloc(), first, *deeds) {
            Some(entries) if entries > *more_than => println!(rt; "  as anew from deed {first}")?,
            Some(entries) => println!(rt; "  from deed {first} only {entries} entries")?,
            None => println!(rt; "  not as anew from deed {first}")?,
        }
    }
    Ok(())
}

// The bodies that are told in hexadecimal.
fn bodies_of(alloc: Global, words: &str) -> io::Result<Vec<Vec<u8>>> {
    let mut bodies = Vec::new(alloc);
    for word in words.split_whitespace() {
        bodies.push(body_of(alloc, word)?)?;
    }
    Ok(bodies)
}

fn body_of(alloc: Global, word: &str) -> io::Result<Vec<u8>> {
    match hex::decode(alloc, word) {
        Ok(body) => Ok(body),
        Err(_) => Err(not_understood()),
    }
}

// The claims of a copy that was made behind so many of these bodies, and is brought up behind all.
fn print_since<R: AllocGlobal + Print>(rt: &R, line: &str) -> io::Result<()> {
    let (count, rest) = first_word(line);
    let count = size_of(count)?;
    let bodies = bodies_of(rt.alloc(), rest)?;
    let (before, since) = bodies.split_at(count.min(bodies.len()));
    match claims_since(rt.alloc(), before, since) {
        Some(claims) => print_claims(rt, claims.as_slice()),
        None => Err(not_understood()),
    }
}

fn print_claims<R: AllocGlobal + Print>(rt: &R, claims: &[(Claim, Owner)]) -> io::Result<()> {
    for held in claims {
        let text = claim_text(rt.alloc(), held)?;
        println!(rt; "  {text}")?;
    }
    Ok(())
}
