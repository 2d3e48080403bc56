//! The files of a table: bytes under names.

use std::alloc::Global;
use std::io;
use std::io::ErrorKind;

/// Bytes under a name.
#[derive(Drop)]
pub struct NamedFile {
    pub name: String,
    pub bytes: Vec<u8>,
}

/// What a table's line is refused with.
pub fn not_understood() -> io::Error {
    io::Error::from(ErrorKind::InvalidInput)
}

/// The bytes of the file of this name.
pub fn bytes_of<'a>(files: &'a [NamedFile], name: &str) -> io::Result<&'a [u8]> {
    for file in files {
        if file.name.as_str() == name {
            return Ok(file.bytes.as_slice());
        }
    }
    Err(not_understood())
}

/// Begins an empty file.
pub fn begin_file(alloc: Global, files: &mut Vec<NamedFile>, name: &str) -> io::Result<()> {
    let name = String::from_str(alloc, name)?;
    let bytes = Vec::new(alloc);
    files.push(NamedFile { name, bytes })?;
    Ok(())
}

/// Puts a line behind the bytes of the last file.
pub fn add_line(files: &mut Vec<NamedFile>, line: &str) -> io::Result<()> {
    let Some(file) = files.last_mut() else {
        return Err(not_understood());
    };
    file.bytes.extend_from_slice(line.as_bytes())?;
    file.bytes.push(b'\n')?;
    Ok(())
}
