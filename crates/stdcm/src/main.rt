//! The program: it runs the command of its words over real files, pipes and standard streams.
#![tactic(auto)]

use command_reports::{Refusal, finish};
use osrd_stdcm::{access_of_words, rules_of_words, run};
use outside_io::{DiskAccess, FileOutside};
use std::alloc::{AllocError, Global};
use std::io::ErrorKind;
use std::process::ExitCode;
use std::{env, io};

// Bytes of the room that is made once.
const ROOM: usize = 31 << 20;

// Bytes of each of the two pieces that leave room at the end of the heap.
const HALF_AHEAD: usize = 24 << 20;

fn main(rt: HostRuntime) -> ExitCode {
    keep_freed_room(rt.alloc());
    let words = match words_of(&rt) {
        Ok(words) => words,
        // No word that is understood has bytes that are no text: these are
        // refused as no words at all are.
        Err(error) if error.kind() == ErrorKind::InvalidData => Vec::new(rt.alloc()),
        Err(_) => return end_without_memory(rt),
    };
    let Ok(rules) = rules_of_words(rt.alloc(), &words) else {
        return end_without_memory(rt);
    };
    let Ok(access) = access_of_words(rt.alloc(), &words) else {
        return end_without_memory(rt);
    };
    let mut outside = FileOutside::new(rt, access);
    let status = run(&rt, &words, &mut outside, rules);
    ExitCode::from(status.number())
}

// Ends where memory was wanted for the words, or for what is made of them: it is reported as want
// of memory within a command is.
fn end_without_memory(rt: HostRuntime) -> ExitCode {
    let mut outside = FileOutside::new(rt, DiskAccess::Reading);
    let status = finish(Err(Refusal::Memory), &mut outside);
    ExitCode::from(status.number())
}

// Makes room and gives it back untouched. From then on the C library keeps pieces of up to that
// size that are let go, and twice that in all, for those that ask next: without it a search over a
// large network has its memory from the system anew, page by page. Two pieces more, made behind
// that and held at once, leave 48 MiB at the end of its heap, less than it would give back: there a
// file's bytes grow to 32 MiB where they stand, and what is made once they are let go takes their
// pages.
fn keep_freed_room(alloc: Global) {
    let room: Result<Vec<u8>, AllocError> = Vec::with_capacity(alloc, ROOM);
    drop(room);
    let _one: Result<Vec<u8>, AllocError> = Vec::with_capacity(alloc, HALF_AHEAD);
    let _other: Result<Vec<u8>, AllocError> = Vec::with_capacity(alloc, HALF_AHEAD);
}

// The words behind the program's own name.
fn words_of(rt: &HostRuntime) -> io::Result<Vec<String>> {
    let mut words = Vec::new(rt.alloc());
    for word in env::args(rt)?.skip(1) {
        words.push(word)?;
    }
    Ok(words)
}
