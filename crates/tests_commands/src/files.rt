//! The files of a table: bytes under names.

use memchr::memmem;
use std::alloc::Global;
use std::io;
use std::io::ErrorKind;

/// Bytes under a name.
#[derive(Drop)]
pub struct NamedFile {
    pub name: String,
    pub bytes: Vec<u8>,
}

/// What a table's line is refused with.
pub fn not_understood() -> io::Error {
    io::Error::from(ErrorKind::InvalidInput)
}

/// A table's word as a number.
pub fn number_of(word: &str) -> io::Result<u64> {
    match word.parse::<u64>() {
        Ok(number) => Ok(number),
        Err(_) => Err(not_understood()),
    }
}

/// The numbers of a table's words, of which there may be none.
pub fn numbers_of(alloc: Global, words: &str) -> io::Result<Vec<u64>> {
    let mut numbers = Vec::new(alloc);
    for word in words.split_whitespace() {
        numbers.push(number_of(word)?)?;
    }
    Ok(numbers)
}

/// A table's first word, and the rest behind a space.
pub fn first_word(line: &str) -> (&str, &str) {
    match line.split_once(' ') {
        Some(both) => both,
        None => (line, ""),
    }
}

/// The bytes of the file of this name that was given last.
pub fn bytes_of<'a>(files: &'a [NamedFile], name: &str) -> io::Result<&'a [u8]> {
    let mut found = Err(not_understood());
    for file in files {
        if file.name.as_str() == name {
            found = Ok(file.bytes.as_slice());
        }
    }
    found
}

/// Begins a file with these bytes.
pub fn begin_file(
    alloc: Global,
    files: &mut Vec<NamedFile>,
    name: &str,
    bytes: &[u8],
) -> io::Result<()> {
    let name = String::from_str(alloc, name)?;
    let bytes = Vec::from_slice(alloc, bytes)?;
    files.push(NamedFile { name, bytes })?;
    Ok(())
}

/// Begins a file that is as another.
pub fn copy_file(
    alloc: Global,
    files: &mut Vec<NamedFile>,
    name: &str,
    of: &str,
) -> io::Result<()> {
    let bytes = Vec::from_slice(alloc, bytes_of(files, of)?)?;
    begin_file(alloc, files, name, &bytes)
}

/// Puts a line behind a file's bytes.
pub fn add_line(file: &mut NamedFile, line: &str) -> io::Result<()> {
    file.bytes.extend_from_slice(line.as_bytes())?;
    file.bytes.push(b'\n')?;
    Ok(())
}

/// Replaces a text that stands in the file.
pub fn replace(alloc: Global, file: &mut NamedFile, old: &str, new: &str) -> io::Result<()> {
    let Some(at) = memmem::find(file.bytes.as_slice(), old.as_bytes()) else {
        return Err(not_understood());
    };
    let mut bytes = front_of(alloc, file.bytes.as_slice(), at)?;
    bytes.extend_from_slice(new.as_bytes())?;
    bytes.extend_from_slice(behind(file.bytes.as_slice(), at.saturating_add(old.len())))?;
    file.bytes = bytes;
    Ok(())
}

// As many of the bytes as there are of this count.
fn front_of(alloc: Global, bytes: &[u8], count: usize) -> io::Result<Vec<u8>> {
    match bytes.split_at_checked(count) {
        Some((front, _)) => Ok(Vec::from_slice(alloc, front)?),
        None => Ok(Vec::from_slice(alloc, bytes)?),
    }
}

// The bytes from this place on.
pub fn behind(bytes: &[u8], at: usize) -> &[u8] {
    match bytes.split_at_checked(at) {
        Some((_, back)) => back,
        None => &[],
    }
}

/// Cuts a file's end off.
pub fn cut(file: &mut NamedFile, count: u64) -> io::Result<()> {
    let Ok(count) = usize::try_from(count) else {
        return Err(not_understood());
    };
    file.bytes.truncate(count);
    Ok(())
}

/// Writes bytes, told in hexadecimal, over those of a file from a place on.
pub fn put(alloc: Global, file: &mut NamedFile, at: u64, text: &str) -> io::Result<()> {
    let Ok(at) = usize::try_from(at) else {
        return Err(not_understood());
    };
    let piece = bytes_in(alloc, text)?;
    let mut bytes = front_of(alloc, file.bytes.as_slice(), at)?;
    bytes.extend_from_slice(&piece)?;
    bytes.extend_from_slice(behind(file.bytes.as_slice(), at.saturating_add(piece.len())))?;
    file.bytes = bytes;
    Ok(())
}

/// Puts bytes, told in hexadecimal, so many times behind those of a file.
pub fn fill(alloc: Global, file: &mut NamedFile, count: u64, text: &str) -> io::Result<()> {
    let piece = bytes_in(alloc, text)?;
    for _ in 0..count {
        file.bytes.extend_from_slice(&piece)?;
    }
    Ok(())
}

/// Puts a text so many times behind the bytes of a file, each time with the next number, from 1
/// on, in the place of each `#`.
pub fn count(alloc: Global, file: &mut NamedFile, times: u64, text: &str) -> io::Result<()> {
    for before in 0..times {
        let number = before.saturating_add(1);
        add_numbered(file, &format!(in alloc; "{number}")?, text)?;
    }
    Ok(())
}

// Puts a text behind the bytes of a file, with a number in the place of each `#`.
fn add_numbered(file: &mut NamedFile, number: &str, text: &str) -> io::Result<()> {
    for byte in text.as_bytes() {
        if *byte == b'#' {
            file.bytes.extend_from_slice(number.as_bytes())?;
        } else {
            file.bytes.push(*byte)?;
        }
    }
    Ok(())
}

// The bytes that a text tells in hexadecimal.
fn bytes_in(alloc: Global, text: &str) -> io::Result<Vec<u8>> {
    match hex::decode(alloc, text) {
        Ok(bytes) => Ok(bytes),
        Err(_) => Err(not_understood()),
    }
}
