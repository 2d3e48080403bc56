//! What is printed of bytes and answers.

use outside_io::Failed;
use std::alloc::Global;
use std::io;

/// Bytes as a text: each is itself, but a `%` and those that are no printed characters are a
/// `%` and two hexadecimal digits.
pub fn shown(alloc: Global, bytes: &[u8]) -> io::Result<String> {
    let mut text = String::new(alloc);
    for byte in bytes {
        push_byte(&mut text, *byte)?;
    }
    Ok(text)
}

fn push_byte(text: &mut String, byte: u8) -> io::Result<()> {
    if byte.is_ascii_graphic() && byte != b'%' {
        text.push(char::from(byte))?;
    } else {
        write!(text, "%{byte:02X}")?;
    }
    Ok(())
}

/// A word, or `failed`.
pub fn word_of(alloc: Global, answer: Result<(), Failed>, word: &str) -> io::Result<String> {
    let text = match answer {
        Ok(()) => word,
        Err(Failed) => "failed",
    };
    Ok(String::from_str(alloc, text)?)
}

/// A word with a count, or `failed`.
pub fn count_of(alloc: Global, answer: Result<u64, Failed>, word: &str) -> io::Result<String> {
    match answer {
        Ok(count) => Ok(format!(in alloc; "{word} {count}")?),
        Err(Failed) => Ok(String::from_str(alloc, "failed")?),
    }
}
