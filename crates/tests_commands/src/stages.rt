//! What a run finds, and the run.

use crate::files::NamedFile;
use crate::fused::Fused;
use crate::outcomes::{SINKS, outcome_of};
use no_memory::NoMemory;
use osrd_stdcm::{rules_of_words, run};
use outside_io::{MemDisk, MemOutside, MemSink, MemSource};
use std::alloc::{AllocGlobal, Global};
use std::io;
use std::io::ErrorKind;
use std::sync::Wait;
use std::thread::Threads;

/// The room of a sink, and of a disk, where the table says no other.
pub const ROOM: usize = 65_536;

// A sink that stands ready for each run, and is not printed.
const PROOFS: &str = "proofs";

/// A source, a sink or the report, with its room and the calls of it that fail.
#[derive(Drop)]
pub struct Listed {
    pub name: String,
    pub room: usize,
    pub fails: Vec<u64>,
}

/// What the next run finds that is not as it is for all.
#[derive(Drop)]
pub struct Plan {
    pub sources: Vec<Listed>,
    pub sinks: Vec<Listed>,
}

impl Plan {
    /// Nothing that is not as it is for all.
    pub fn new(alloc: Global) -> Plan {
        Plan {
            sources: Vec::new(alloc),
            sinks: Vec::new(alloc),
        }
    }
}

/// The error of want of memory.
pub fn no_memory(_refused: NoMemory) -> io::Error {
    io::Error::from(ErrorKind::OutOfMemory)
}

/// A disk of these bytes, of which the listed calls fail, or the listed syncs alone.
pub fn disk_of(
    alloc: Global,
    bytes: &[u8],
    are_syncs: bool,
    fails: Vec<u64>,
) -> io::Result<MemDisk> {
    let bytes = Vec::from_slice(alloc, bytes)?;
    let made = if are_syncs {
        MemDisk::failing_syncs(alloc, bytes, ROOM, fails)
    } else {
        MemDisk::new(alloc, bytes, ROOM, fails)
    };
    made.map_err(no_memory)
}

/// An outside with nothing in it. The listed opening calls fail.
pub fn outside_of(alloc: Global, fails: Vec<u64>) -> Fused {
    Fused {
        inside: MemOutside::new(alloc, fails),
        calls: u64::MAX,
    }
}

/// Runs a command over an outside, with the rules that its words ask for, the files as its sources
/// and fresh sinks, and tells how it ends.
pub fn run_over<R: AllocGlobal + Threads + Wait + Sync>(
    rt: &R,
    words: &str,
    files: &[NamedFile],
    plan: &Plan,
    outside: &mut Fused,
) -> io::Result<String> {
    let alloc = rt.alloc();
    set_sources(alloc, files, plan, &mut outside.inside)?;
    set_sinks(alloc, plan, &mut outside.inside)?;
    let words = words_of(alloc, words)?;
    let rules = rules_of_words(alloc, &words).map_err(no_memory)?;
    let status = run(rt, &words, outside, rules);
    outcome_of(alloc, status, &outside.inside)
}

/// Runs a command over each image that a crash may leave of a disk, and
/// tells the outcomes that differ.
pub fn run_over_images<R: AllocGlobal + Threads + Wait + Sync>(
    rt: &R,
    name: &str,
    disk: &MemDisk,
    words: &str,
    files: &[NamedFile],
) -> io::Result<Vec<String>> {
    let alloc = rt.alloc();
    let mut outcomes = Vec::new(alloc);
    for choice in 0..8u64 {
        let image = disk.crash(alloc, choice).map_err(no_memory)?;
        let mut outside = outside_of(alloc, Vec::new(alloc));
        outside.inside.set_disk(name, image).map_err(no_memory)?;
        let outcome = run_over(rt, words, files, &Plan::new(alloc), &mut outside)?;
        if !is_among(&outcomes, outcome.as_str()) {
            outcomes.push(outcome)?;
        }
    }
    Ok(outcomes)
}

fn is_among(texts: &[String], text: &str) -> bool {
    for one in texts {
        if one.as_str() == text {
            return true;
        }
    }
    false
}

// The words of a line, each behind one space.
fn words_of(alloc: Global, line: &str) -> io::Result<Vec<String>> {
    let mut words = Vec::new(alloc);
    for word in line.split(' ') {
        words.push(String::from_str(alloc, word)?)?;
    }
    Ok(words)
}

// The calls that fail of the one with this name.
fn fails_of(alloc: Global, listed: &[Listed], name: &str) -> io::Result<Vec<u64>> {
    for one in listed {
        if one.name.as_str() == name {
            return Ok(Vec::from_slice(alloc, &one.fails)?);
        }
    }
    Ok(Vec::new(alloc))
}

fn room_of(listed: &[Listed], name: &str) -> usize {
    for one in listed {
        if one.name.as_str() == name {
            return one.room;
        }
    }
    ROOM
}

// Each file stands ready as a source under its name.
fn set_sources(
    alloc: Global,
    files: &[NamedFile],
    plan: &Plan,
    outside: &mut MemOutside,
) -> io::Result<()> {
    for file in files {
        let name = file.name.as_str();
        let bytes = Vec::from_slice(alloc, &file.bytes)?;
        let fails = fails_of(alloc, &plan.sources, name)?;
        let source = MemSource::new(bytes, fails);
        outside.set_source(name, source).map_err(no_memory)?;
    }
    Ok(())
}

// An empty sink with the room and the failing calls that the plan says.
fn sink_of(alloc: Global, plan: &Plan, name: &str) -> io::Result<MemSink> {
    let fails = fails_of(alloc, &plan.sinks, name)?;
    MemSink::new(alloc, room_of(&plan.sinks, name), fails).map_err(no_memory)
}

fn set_sinks(alloc: Global, plan: &Plan, outside: &mut MemOutside) -> io::Result<()> {
    for name in SINKS {
        set_sink(alloc, plan, name, outside)?;
    }
    set_sink(alloc, plan, PROOFS, outside)?;
    outside.set_report(sink_of(alloc, plan, "report")?);
    Ok(())
}

fn set_sink(alloc: Global, plan: &Plan, name: &str, outside: &mut MemOutside) -> io::Result<()> {
    let sink = sink_of(alloc, plan, name)?;
    outside.set_sink(name, sink).map_err(no_memory)
}
