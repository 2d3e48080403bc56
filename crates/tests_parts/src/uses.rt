//! Calls of a source, a sink and a disk, and what they answer, as text.

use crate::shown::{count_of, shown, word_of};
use crate::words::{first_word, not_understood, number_of, size_of};
use outside_io::{AllFault, Disk, Failed, Sink, Source, Stopped, read_all, write_all};
use std::alloc::Global;
use std::io;

/// `read N` reads up to N bytes once, `all N` reads to the end, if that
/// comes behind no more than N.
pub fn use_source<S: Source>(
    alloc: Global,
    source: &mut S,
    word: &str,
    rest: &str,
) -> io::Result<String> {
    let count = size_of(rest)?;
    if word == "read" {
        read_once(alloc, source, count)
    } else {
        read_whole(alloc, source, count)
    }
}

fn read_once<S: Source>(alloc: Global, source: &mut S, count: usize) -> io::Result<String> {
    let mut into = vec![in alloc; 0u8; count]?;
    match source.read(into.as_mut_slice()) {
        Ok(0) => Ok(String::from_str(alloc, "end")?),
        Ok(got) => read_text(alloc, into.as_slice(), got),
        Err(Failed) => Ok(String::from_str(alloc, "failed")?),
    }
}

// What a read gave: the first of these bytes.
fn read_text(alloc: Global, bytes: &[u8], count: usize) -> io::Result<String> {
    let Some((front, _)) = bytes.split_at_checked(count) else {
        return Err(not_understood());
    };
    let text = shown(alloc, front)?;
    Ok(format!(in alloc; "read {text}")?)
}

fn read_whole<S: Source>(alloc: Global, source: &mut S, limit: usize) -> io::Result<String> {
    match read_all(alloc, source, limit as u64) {
        Ok(bytes) if bytes.len() > 99 => Ok(format!(in alloc; "read {} bytes", bytes.len())?),
        Ok(bytes) => read_text(alloc, bytes.as_slice(), bytes.len()),
        Err(AllFault::TooLong) => Ok(String::from_str(alloc, "too long")?),
        Err(AllFault::Failed) => Ok(String::from_str(alloc, "failed")?),
        Err(AllFault::Memory) => Ok(String::from_str(alloc, "no memory")?),
    }
}

/// `write TEXT` writes once, `put TEXT` until all is taken, and `line TEXT` too,
/// with a line's end behind it.
pub fn use_sink<K: Sink>(
    alloc: Global,
    sink: &mut K,
    word: &str,
    text: &str,
) -> io::Result<String> {
    match word {
        "write" => match sink.write(text.as_bytes()) {
            Ok(count) => Ok(format!(in alloc; "took {count}")?),
            Err(Failed) => Ok(String::from_str(alloc, "failed")?),
        },
        "put" => written(alloc, write_all(sink, text.as_bytes())),
        _ => {
            let line = format!(in alloc; "{text}\n")?;
            written(alloc, write_all(sink, line.as_bytes()))
        }
    }
}

fn written(alloc: Global, answer: Result<(), Stopped>) -> io::Result<String> {
    match answer {
        Ok(()) => Ok(String::from_str(alloc, "took all")?),
        Err(Stopped { taken }) => Ok(format!(in alloc; "stopped behind {taken}")?),
    }
}

/// `length`, `sync`, `at PLACE N` reads up to N bytes from a place on, and
/// `over PLACE TEXT` writes from a place on.
pub fn use_disk<D: Disk>(
    alloc: Global,
    disk: &mut D,
    word: &str,
    rest: &str,
) -> io::Result<String> {
    let (place, rest) = first_word(rest);
    match word {
        "length" => count_of(alloc, disk.len(), "length"),
        "sync" => word_of(alloc, disk.sync(), "synced"),
        "over" => word_of(
            alloc,
            disk.write_at(number_of(place)?, rest.as_bytes()),
            "written",
        ),
        _ => read_at(alloc, disk, number_of(place)?, size_of(rest)?),
    }
}

fn read_at<D: Disk>(alloc: Global, disk: &mut D, at: u64, count: usize) -> io::Result<String> {
    let mut into = vec![in alloc; 0u8; count]?;
    match disk.read(at, into.as_mut_slice()) {
        Ok(got) => read_text(alloc, into.as_slice(), got),
        Err(Failed) => Ok(String::from_str(alloc, "failed")?),
    }
}
