//! A table's lines, one after another.

use crate::files::{
    NamedFile, add_line, begin_file, behind, bytes_of, copy_file, count, cut, fill, first_word,
    not_understood, number_of, numbers_of, put, replace,
};
use crate::fused::Fused;
use crate::stages::{
    Listed, Plan, ROOM, disk_of, no_memory, outside_of, run_over, run_over_images,
};
use outside_io::MemOutside;
use std::alloc::{AllocGlobal, Global};
use std::io;
use std::sync::Wait;
use std::thread::Threads;

// What the lines so far have made.
#[derive(Drop)]
struct Table {
    files: Vec<NamedFile>,
    // Whether the lines from here on are those of the last file.
    is_open: bool,
    // The text that is to be replaced in the last file.
    old: String,
    outside: Fused,
    plan: Plan,
}

/// Carries out a table, and prints what comes of it.
pub fn carry_out<R: AllocGlobal + Print + Threads + Wait + Sync>(
    rt: &R,
    lines: &str,
) -> io::Result<()> {
    let alloc = rt.alloc();
    let mut table = Table {
        files: Vec::new(alloc),
        is_open: false,
        old: String::new(alloc),
        outside: outside_of(alloc, Vec::new(alloc)),
        plan: Plan::new(alloc),
    };
    for line in lines.lines() {
        if table.is_open {
            take_file_line(&mut table, line)?;
        } else {
            carry_out_line(rt, &mut table, line)?;
        }
    }
    Ok(())
}

// A line of the last file, or its end.
fn take_file_line(table: &mut Table, line: &str) -> io::Result<()> {
    if line == "." {
        table.is_open = false;
        return Ok(());
    }
    add_line(last_file(&mut table.files)?, line)
}

fn last_file(files: &mut Vec<NamedFile>) -> io::Result<&mut NamedFile> {
    match files.last_mut() {
        Some(file) => Ok(file),
        None => Err(not_understood()),
    }
}

// A line outside files.
fn carry_out_line<R: AllocGlobal + Print + Threads + Wait + Sync>(
    rt: &R,
    table: &mut Table,
    line: &str,
) -> io::Result<()> {
    let (word, rest) = first_word(line);
    match word {
        "" | "#" => Ok(()),
        "case" => begin_case(rt, table, rest),
        "run" => run_words(rt, table, rest),
        "images" => run_images(rt, table, rest),
        "bytes" => print_bytes(rt, table, rest),
        "opening" | "disk" | "fuse" | "source" | "sink" => set(rt.alloc(), table, word, rest),
        "keep" => keep_bytes(rt.alloc(), table, rest),
        _ => edit(rt.alloc(), table, word, rest),
    }
}

// Prints the title of a case, which begins with an empty outside.
fn begin_case<R: AllocGlobal + Print>(rt: &R, table: &mut Table, title: &str) -> io::Result<()> {
    table.outside = outside_of(rt.alloc(), Vec::new(rt.alloc()));
    table.plan = Plan::new(rt.alloc());
    println!(rt; "{title}")
}

fn run_words<R: AllocGlobal + Print + Threads + Wait + Sync>(
    rt: &R,
    table: &mut Table,
    words: &str,
) -> io::Result<()> {
    let outcome = run_over(rt, words, &table.files, &table.plan, &mut table.outside)?;
    table.plan = Plan::new(rt.alloc());
    table.outside.calls = u64::MAX;
    print!(rt; "{outcome}")
}

fn run_images<R: AllocGlobal + Print + Threads + Wait + Sync>(
    rt: &R,
    table: &mut Table,
    rest: &str,
) -> io::Result<()> {
    let (name, words) = first_word(rest);
    let Some(disk) = table.outside.inside.disk_of(name) else {
        return Err(not_understood());
    };
    for outcome in run_over_images(rt, name, disk, words, &table.files)?.iter() {
        print!(rt; "  an image\n{outcome}")?;
    }
    Ok(())
}

// What the disk of this name holds, or else the sink.
fn held_under<'a>(outside: &'a MemOutside, name: &str) -> io::Result<&'a [u8]> {
    match (outside.disk_of(name), outside.sink_of(name)) {
        (Some(disk), _) => Ok(disk.bytes()),
        (None, Some(sink)) => Ok(sink.bytes()),
        (None, None) => Err(not_understood()),
    }
}

// Prints how many bytes a disk or a sink holds, and those from a place on.
fn print_bytes<R: AllocGlobal + Print>(rt: &R, table: &mut Table, rest: &str) -> io::Result<()> {
    let (name, place) = first_word(rest);
    let Ok(at) = usize::try_from(number_of(place)?) else {
        return Err(not_understood());
    };
    let bytes = held_under(&table.outside.inside, name)?;
    let count = bytes.len();
    let text = hex::encode(rt.alloc(), behind(bytes, at))?;
    println!(rt; "  {name} has {count} bytes, from {place} on {text}")
}

// Keeps what a disk or a sink holds as a file.
fn keep_bytes(alloc: Global, table: &mut Table, rest: &str) -> io::Result<()> {
    let (name, of) = first_word(rest);
    let bytes = held_under(&table.outside.inside, of)?;
    begin_file(alloc, &mut table.files, name, bytes)
}

// Sets what the next run finds.
fn set(alloc: Global, table: &mut Table, word: &str, rest: &str) -> io::Result<()> {
    match word {
        "opening" => {
            table.outside = outside_of(alloc, numbers_of(alloc, rest)?);
            Ok(())
        }
        "fuse" => {
            table.outside.calls = number_of(rest)?;
            Ok(())
        }
        "disk" => set_disk(alloc, table, rest),
        "source" => {
            let (name, fails) = first_word(rest);
            table.plan.sources.push(listed(alloc, name, ROOM, fails)?)?;
            Ok(())
        }
        _ => {
            let (name, rest) = first_word(rest);
            let (room, fails) = first_word(rest);
            let Ok(room) = usize::try_from(number_of(room)?) else {
                return Err(not_understood());
            };
            table.plan.sinks.push(listed(alloc, name, room, fails)?)?;
            Ok(())
        }
    }
}

fn listed(alloc: Global, name: &str, room: usize, fails: &str) -> io::Result<Listed> {
    Ok(Listed {
        name: String::from_str(alloc, name)?,
        room,
        fails: numbers_of(alloc, fails)?,
    })
}

// Puts a disk with a file's bytes there, of which calls fail, or syncs.
fn set_disk(alloc: Global, table: &mut Table, rest: &str) -> io::Result<()> {
    let (name, rest) = first_word(rest);
    let (file, rest) = first_word(rest);
    let (kind, fails) = first_word(rest);
    let bytes = bytes_of(&table.files, file)?;
    let disk = disk_of(alloc, bytes, kind == "syncs", numbers_of(alloc, fails)?)?;
    let set = table.outside.inside.set_disk(name, disk);
    set.map_err(no_memory)
}

// Begins a file, or changes the last one.
fn edit(alloc: Global, table: &mut Table, word: &str, rest: &str) -> io::Result<()> {
    match word {
        "file" => {
            table.is_open = true;
            begin_file(alloc, &mut table.files, rest, &[])
        }
        "copy" => {
            let (name, of) = first_word(rest);
            copy_file(alloc, &mut table.files, name, of)
        }
        "-" => {
            table.old = String::from_str(alloc, rest)?;
            Ok(())
        }
        "+" => {
            let file = last_file(&mut table.files)?;
            replace(alloc, file, table.old.as_str(), rest)
        }
        "cut" => cut(last_file(&mut table.files)?, number_of(rest)?),
        "put" => {
            let (at, text) = first_word(rest);
            put(alloc, last_file(&mut table.files)?, number_of(at)?, text)
        }
        "fill" => {
            let (times, text) = first_word(rest);
            fill(alloc, last_file(&mut table.files)?, number_of(times)?, text)
        }
        "count" => {
            let (times, text) = first_word(rest);
            count(alloc, last_file(&mut table.files)?, number_of(times)?, text)
        }
        _ => Err(not_understood()),
    }
}
