//! The words of a table's lines.

use no_memory::NoMemory;
use std::alloc::Global;
use std::io;
use std::io::ErrorKind;

/// What a table's line is refused with.
pub fn not_understood() -> io::Error {
    io::Error::from(ErrorKind::InvalidInput)
}

/// The error of want of memory.
pub fn no_memory(_refused: NoMemory) -> io::Error {
    io::Error::from(ErrorKind::OutOfMemory)
}

/// The first word of a line, and the rest behind a space.
pub fn first_word(line: &str) -> (&str, &str) {
    match line.split_once(' ') {
        Some(both) => both,
        None => (line, ""),
    }
}

/// A word as a number.
pub fn number_of(word: &str) -> io::Result<u64> {
    match word.parse::<u64>() {
        Ok(number) => Ok(number),
        Err(_) => Err(not_understood()),
    }
}

/// A word as a number of 32 bits.
pub fn small_of(word: &str) -> io::Result<u32> {
    match word.parse::<u32>() {
        Ok(number) => Ok(number),
        Err(_) => Err(not_understood()),
    }
}

/// A word as a tick.
pub fn tick_of(word: &str) -> io::Result<i64> {
    match word.parse::<i64>() {
        Ok(tick) => Ok(tick),
        Err(_) => Err(not_understood()),
    }
}

/// A word as a count.
pub fn size_of(word: &str) -> io::Result<usize> {
    match word.parse::<usize>() {
        Ok(size) => Ok(size),
        Err(_) => Err(not_understood()),
    }
}

/// The numbers of a line, of which there may be none.
pub fn numbers_of(alloc: Global, line: &str) -> io::Result<Vec<u64>> {
    let mut numbers = Vec::new(alloc);
    for word in line.split_whitespace() {
        numbers.push(number_of(word)?)?;
    }
    Ok(numbers)
}
