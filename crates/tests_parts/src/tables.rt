//! A table's lines, one after another.

use crate::outsides::{Held, kind_and_name, open, put_back, use_held};
use crate::paths::{Pipe, content, name_of, remove};
use crate::railway::first_world;
use crate::shown::shown;
use crate::words::{
    first_word, no_memory, not_understood, number_of, numbers_of, size_of, small_of,
};
use crate::worlds::{known, step};
use outside_io::{
    DiskAccess, FileDisk, FileOutside, FileSink, FileSource, Fuse, MemDisk, MemOutside, MemSink,
    MemSource,
};
use plan_core::World;
use std::alloc::Global;
use std::{io, mem};

// What the lines so far have made.
#[derive(Drop)]
struct Table {
    memory: MemOutside,
    of_memory: Held<MemSource, MemSink, Fuse<MemDisk>>,
    machine: FileOutside,
    of_machine: Held<FileSource, FileSink, Fuse<FileDisk>>,
    // Whether objects are those of the machine.
    is_machine: bool,
    pipe: Pipe,
    // The calls that fail of what is made next.
    fails: Vec<u64>,
    // How many calls the fuse of a disk lets through that is opened.
    calls: u64,
    world: Option<World>,
}

impl Table {
    // An empty outside in memory, of which nothing is held.
    fn new(rt: HostRuntime) -> Table {
        let alloc = rt.alloc();
        Table {
            memory: MemOutside::new(alloc, Vec::new(alloc)),
            of_memory: Held::new(),
            machine: FileOutside::new(rt, DiskAccess::Writing),
            of_machine: Held::new(),
            is_machine: false,
            pipe: Pipe::none(),
            fails: Vec::new(alloc),
            calls: u64::MAX,
            world: None,
        }
    }
}

/// Carries out a table, and prints what comes of it.
pub fn carry_out(rt: HostRuntime, lines: &str) -> io::Result<()> {
    let mut table = Table::new(rt);
    carry_out_lines(&rt, &mut table, lines)
}

fn carry_out_lines(rt: &HostRuntime, table: &mut Table, lines: &str) -> io::Result<()> {
    for line in lines.lines() {
        carry_out_line(rt, table, line)?;
    }
    Ok(())
}

fn carry_out_line(rt: &HostRuntime, table: &mut Table, line: &str) -> io::Result<()> {
    let alloc = rt.alloc();
    let (word, rest) = first_word(line);
    match word {
        "" | "#" => Ok(()),
        "case" => {
            begin_case(rt, table);
            println!(rt; "{rest}")
        }
        "fails" => set_fails(alloc, table, rest),
        "fuse" => {
            table.calls = number_of(rest)?;
            Ok(())
        }
        "outside" | "source" | "long" | "sink" | "report" | "disk" | "syncs" => {
            set(alloc, table, word, rest)
        }
        "machine" | "pipe" | "close" | "content" | "remove" => use_machine(rt, table, word, rest),
        "open" | "back" => hand_over(rt, table, word, rest),
        "look" => look(rt, table, rest),
        "images" => print_images(rt, table, rest),
        "world" => set_world(alloc, table, rest),
        "event" | "client" => use_world(rt, table, word, rest),
        _ => print_text(rt, used(alloc, table, word, rest)),
    }
}

fn begin_case(rt: &HostRuntime, table: &mut Table) {
    *table = Table::new(*rt);
}

fn print_text(rt: &HostRuntime, text: io::Result<String>) -> io::Result<()> {
    let text = text?;
    println!(rt; "  {text}")
}

// What comes of a use of what is held of the machine, or of what is held of memory.
fn used(alloc: Global, table: &mut Table, word: &str, rest: &str) -> io::Result<String> {
    if table.is_machine {
        use_held(alloc, &mut table.of_machine, word, rest)
    } else {
        use_held(alloc, &mut table.of_memory, word, rest)
    }
}

fn set_fails(alloc: Global, table: &mut Table, rest: &str) -> io::Result<()> {
    table.fails = numbers_of(alloc, rest)?;
    Ok(())
}

fn set_world(alloc: Global, table: &mut Table, rest: &str) -> io::Result<()> {
    table.world = first_world(alloc, small_of(rest)?).map_err(no_memory)?;
    Ok(())
}

// Sets an object of the outside in memory, or begins that anew. Of what is made after that no call
// fails.
fn set(alloc: Global, table: &mut Table, word: &str, rest: &str) -> io::Result<()> {
    let fails = mem::replace(&mut table.fails, Vec::new(alloc));
    let (name, rest) = first_word(rest);
    let memory = &mut table.memory;
    match word {
        "outside" => {
            *memory = MemOutside::new(alloc, fails);
            Ok(())
        }
        "source" => set_source(alloc, memory, name, rest, fails),
        "long" => set_long(alloc, memory, name, rest, fails),
        "sink" => set_sink(alloc, memory, name, rest, fails),
        "report" => set_report(alloc, memory, name, fails),
        _ => set_disk(alloc, memory, word, name, rest, fails),
    }
}

fn set_source(
    alloc: Global,
    memory: &mut MemOutside,
    name: &str,
    text: &str,
    fails: Vec<u64>,
) -> io::Result<()> {
    let bytes = Vec::from_slice(alloc, text.as_bytes())?;
    let source = MemSource::new(bytes, fails);
    memory.set_source(name, source).map_err(no_memory)
}

// A source of so many bytes, all the same.
fn set_long(
    alloc: Global,
    memory: &mut MemOutside,
    name: &str,
    size: &str,
    fails: Vec<u64>,
) -> io::Result<()> {
    let bytes = long_bytes(alloc, size)?;
    let source = MemSource::new(bytes, fails);
    memory.set_source(name, source).map_err(no_memory)
}

fn long_bytes(alloc: Global, size: &str) -> io::Result<Vec<u8>> {
    Ok(vec![in alloc; b'x'; size_of(size)?]?)
}

fn set_sink(
    alloc: Global,
    memory: &mut MemOutside,
    name: &str,
    room: &str,
    fails: Vec<u64>,
) -> io::Result<()> {
    let sink = sink_of(alloc, room, fails)?;
    memory.set_sink(name, sink).map_err(no_memory)
}

fn set_report(
    alloc: Global,
    memory: &mut MemOutside,
    room: &str,
    fails: Vec<u64>,
) -> io::Result<()> {
    memory.set_report(sink_of(alloc, room, fails)?);
    Ok(())
}

// An empty sink with this room, of which calls fail.
fn sink_of(alloc: Global, room: &str, fails: Vec<u64>) -> io::Result<MemSink> {
    MemSink::new(alloc, size_of(room)?, fails).map_err(no_memory)
}

fn set_disk(
    alloc: Global,
    memory: &mut MemOutside,
    word: &str,
    name: &str,
    line: &str,
    fails: Vec<u64>,
) -> io::Result<()> {
    let disk = disk_of(alloc, word, line, fails)?;
    memory.set_disk(name, disk).map_err(no_memory)
}

// A disk of this room with these bytes, of which calls fail, or syncs.
fn disk_of(alloc: Global, word: &str, line: &str, fails: Vec<u64>) -> io::Result<MemDisk> {
    let (room, text) = first_word(line);
    let room = size_of(room)?;
    let bytes = Vec::from_slice(alloc, text.as_bytes())?;
    let made = if word == "syncs" {
        MemDisk::failing_syncs(alloc, bytes, room, fails)
    } else {
        MemDisk::new(alloc, bytes, room, fails)
    };
    made.map_err(no_memory)
}

// Turns to the machine, to a pipe of it, or to a file of this run.
fn use_machine(rt: &HostRuntime, table: &mut Table, word: &str, rest: &str) -> io::Result<()> {
    match word {
        "machine" => {
            table.is_machine = true;
            table.machine = FileOutside::new(*rt, access_of(rt, &table.pipe, rest)?);
            Ok(())
        }
        "pipe" => {
            table.pipe = Pipe::new(rt)?;
            Ok(())
        }
        "close" => table.pipe.close(rest),
        "content" => print_content(rt, &table.pipe, rest),
        _ => remove(rt, name_of(rt, &table.pipe, rest)?.as_str()),
    }
}

fn print_content(rt: &HostRuntime, pipe: &Pipe, word: &str) -> io::Result<()> {
    let path = name_of(rt, pipe, word)?;
    let text = content_text(rt, path.as_str())?;
    println!(rt; "  {word} holds {text}")
}

fn content_text(rt: &HostRuntime, path: &str) -> io::Result<String> {
    let bytes = content(rt, path)?;
    shown(rt.alloc(), bytes.as_slice())
}

// How a machine opens its disks that was turned to by these words.
fn access_of(rt: &HostRuntime, pipe: &Pipe, words: &str) -> io::Result<DiskAccess> {
    let (word, name) = first_word(words);
    match word {
        "" => Ok(DiskAccess::Writing),
        "reading" => Ok(DiskAccess::Reading),
        "moving" => Ok(DiskAccess::Moving {
            from: name_of(rt, pipe, name)?,
        }),
        _ => Err(not_understood()),
    }
}

// Opens an object under its name, or puts it back.
fn hand_over(rt: &HostRuntime, table: &mut Table, word: &str, rest: &str) -> io::Result<()> {
    let (kind, name) = kind_and_name(rest);
    let name = name_of(rt, &table.pipe, name)?;
    if word == "back" {
        back(table, kind, name.as_str())
    } else {
        print_text(rt, opened(rt.alloc(), table, kind, name.as_str()))
    }
}

fn back(table: &mut Table, kind: &str, name: &str) -> io::Result<()> {
    if table.is_machine {
        put_back(&mut table.machine, &mut table.of_machine, kind, name)
    } else {
        put_back(&mut table.memory, &mut table.of_memory, kind, name)
    }
}

fn opened(alloc: Global, table: &mut Table, kind: &str, name: &str) -> io::Result<String> {
    let calls = table.calls;
    if table.is_machine {
        open(
            alloc,
            &mut table.machine,
            &mut table.of_machine,
            kind,
            name,
            calls,
        )
    } else {
        open(
            alloc,
            &mut table.memory,
            &mut table.of_memory,
            kind,
            name,
            calls,
        )
    }
}

// Prints what an object in memory holds that is not handed out.
fn look(rt: &HostRuntime, table: &mut Table, line: &str) -> io::Result<()> {
    let (kind, name) = kind_and_name(line);
    let memory = &table.memory;
    let bytes = match kind {
        "source" => memory.source_of(name).map(|it| it.left()),
        "sink" => memory.sink_of(name).map(|it| it.bytes()),
        "disk" => memory.disk_of(name).map(|it| it.bytes()),
        "report" => memory.report_of().map(|it| it.bytes()),
        _ => return Err(not_understood()),
    };
    match bytes {
        None => println!(rt; "  {line} is not there"),
        Some(bytes) => {
            let text = shown(rt.alloc(), bytes)?;
            println!(rt; "  {line} holds {text}")
        }
    }
}

// Prints what each crash leaves of a disk in memory.
fn print_images(rt: &HostRuntime, table: &mut Table, name: &str) -> io::Result<()> {
    let Some(disk) = table.memory.disk_of(name) else {
        return Err(not_understood());
    };
    for choice in 0..8u64 {
        let text = image_text(rt.alloc(), disk, choice)?;
        println!(rt; "  image {choice} {text}")?;
    }
    Ok(())
}

fn image_text(alloc: Global, disk: &MemDisk, choice: u64) -> io::Result<String> {
    let image = disk.crash(alloc, choice).map_err(no_memory)?;
    shown(alloc, image.bytes())
}

// An event of the world, or what a client of it knows.
fn use_world(rt: &HostRuntime, table: &mut Table, word: &str, rest: &str) -> io::Result<()> {
    let Some(world) = &mut table.world else {
        return Err(not_understood());
    };
    let text = if word == "event" {
        step(rt.alloc(), world, rest)
    } else {
        known(rt.alloc(), world, rest)
    };
    print_text(rt, text)
}
