//! Objects that are opened under names, used, and put back.

use crate::shown::word_of;
use crate::uses::{use_disk, use_sink, use_source};
use crate::words::{first_word, not_understood};
use outside_io::{Disk, Failed, Fuse, Outside, Sink, Source};
use std::alloc::Global;
use std::io;

/// What was opened last of each kind and is not put back.
#[derive(Drop)]
pub struct Held<S, K, D> {
    pub source: Option<S>,
    pub sink: Option<K>,
    pub disk: Option<D>,
}

impl<S: Drop, K: Drop, D: Drop> Held<S, K, D> {
    /// Nothing.
    pub fn new() -> Held<S, K, D> {
        Held {
            source: None,
            sink: None,
            disk: None,
        }
    }
}

/// Opens an object of a kind under a name. A disk stands behind a fuse
/// that lets so many calls through.
pub fn open<O: Outside>(
    alloc: Global,
    outside: &mut O,
    held: &mut Held<O::Src, O::Snk, Fuse<O::Dsk>>,
    kind: &str,
    name: &str,
    calls: u64,
) -> io::Result<String> {
    let opened = match kind {
        "source" => open_source(outside, &mut held.source, name),
        "sink" => open_sink(outside, &mut held.sink, name),
        "report" => open_report(outside, &mut held.sink),
        "disk" => open_disk(outside, &mut held.disk, name, calls),
        _ => return Err(not_understood()),
    };
    word_of(alloc, opened, "opened")
}

fn open_source<O: Outside>(
    outside: &mut O,
    held: &mut Option<O::Src>,
    name: &str,
) -> Result<(), Failed> {
    let source = outside.source(name)?;
    *held = Some(source);
    Ok(())
}

fn open_sink<O: Outside>(
    outside: &mut O,
    held: &mut Option<O::Snk>,
    name: &str,
) -> Result<(), Failed> {
    let sink = outside.sink(name)?;
    *held = Some(sink);
    Ok(())
}

fn open_report<O: Outside>(outside: &mut O, held: &mut Option<O::Snk>) -> Result<(), Failed> {
    let sink = outside.report()?;
    *held = Some(sink);
    Ok(())
}

fn open_disk<O: Outside>(
    outside: &mut O,
    held: &mut Option<Fuse<O::Dsk>>,
    name: &str,
    calls: u64,
) -> Result<(), Failed> {
    let disk = outside.disk(name)?;
    *held = Some(Fuse::new(disk, calls));
    Ok(())
}

/// Puts the object of a kind that was opened last back under a name.
pub fn put_back<O: Outside>(
    outside: &mut O,
    held: &mut Held<O::Src, O::Snk, Fuse<O::Dsk>>,
    kind: &str,
    name: &str,
) -> io::Result<()> {
    match kind {
        "source" => put_back_source(outside, held.source.take(), name),
        "sink" => put_back_sink(outside, held.sink.take(), name),
        "report" => put_back_report(outside, held.sink.take()),
        "disk" => put_back_disk(outside, held.disk.take(), name),
        _ => Err(not_understood()),
    }
}

fn put_back_source<O: Outside>(
    outside: &mut O,
    held: Option<O::Src>,
    name: &str,
) -> io::Result<()> {
    let Some(source) = held else {
        return Err(not_understood());
    };
    outside.put_back_source(name, source);
    Ok(())
}

fn put_back_sink<O: Outside>(outside: &mut O, held: Option<O::Snk>, name: &str) -> io::Result<()> {
    let Some(sink) = held else {
        return Err(not_understood());
    };
    outside.put_back_sink(name, sink);
    Ok(())
}

fn put_back_report<O: Outside>(outside: &mut O, held: Option<O::Snk>) -> io::Result<()> {
    let Some(sink) = held else {
        return Err(not_understood());
    };
    outside.put_back_report(sink);
    Ok(())
}

fn put_back_disk<O: Outside>(
    outside: &mut O,
    held: Option<Fuse<O::Dsk>>,
    name: &str,
) -> io::Result<()> {
    let Some(disk) = held else {
        return Err(not_understood());
    };
    outside.put_back_disk(name, disk.into_inner());
    Ok(())
}

/// Uses the object that was opened last of the kind that a word is for.
pub fn use_held<S: Source, K: Sink, D: Disk>(
    alloc: Global,
    held: &mut Held<S, K, D>,
    word: &str,
    rest: &str,
) -> io::Result<String> {
    match word {
        "read" | "all" => match &mut held.source {
            Some(source) => use_source(alloc, source, word, rest),
            None => Err(not_understood()),
        },
        "write" | "put" | "line" => match &mut held.sink {
            Some(sink) => use_sink(alloc, sink, word, rest),
            None => Err(not_understood()),
        },
        "length" | "sync" | "at" | "over" => match &mut held.disk {
            Some(disk) => use_disk(alloc, disk, word, rest),
            None => Err(not_understood()),
        },
        _ => Err(not_understood()),
    }
}

/// The kind and the name of a line.
pub fn kind_and_name(line: &str) -> (&str, &str) {
    first_word(line)
}
