//! Refusals of a journal as reports write them.

ghost use Rattle.std.specs.Prelude.{◌≡◌, ◌++◌, codes, decimal, option_map, IfOk};
ghost use Rattle.hex.specs.Hex.{encode_lower};
ghost use Rattle.path_recover.specs.Texts.{digests_text, fault_text, not_empty_text};

use crate::journal_reading::OpenFault;
use itoa::Buffer;
use no_memory::NoMemory;
use std::alloc::Global;

/// The text of a refusal, as `damaged at 116`. None for a fault of the disk and for want of memory,
/// which are no refusals of the journal.
pub fn fault_text(alloc: Global, fault: &OpenFault) -> Result<Option<Vec<u8>>, NoMemory>
    ensures { IfOk result (λ text. option_map (λ text. text.items) text ≡ fault_text fault.now) }
{
    let text = match fault {
        OpenFault::ReadFault | OpenFault::Memory => return Ok(None),
        OpenFault::Empty => alone(alloc, b"empty")?,
        OpenFault::OldVersion => alone(alloc, b"version 1")?,
        OpenFault::NotAJournal { at } => numbered(alloc, b"not a journal at ", *at)?,
        OpenFault::OtherNetwork { had, found } => digests(alloc, b"network ", had, found)?,
        OpenFault::OtherBase { had, found } => digests(alloc, b"base ", had, found)?,
        OpenFault::Damaged { at } => numbered(alloc, b"damaged at ", *at)?,
        OpenFault::Illegal { entry } => illegal(alloc, *entry)?,
    };
    Ok(Some(text))
}

/// The text of a disk with so many bytes on which a journal is not begun, as `not empty 77`.
pub fn not_empty_text(alloc: Global, len: u64) -> Result<Vec<u8>, NoMemory>
    ensures { IfOk result (λ text. text.items ≡ not_empty_text len) }
{
    numbered(alloc, b"not empty ", len)
}

fn alone(alloc: Global, words: &[u8]) -> Result<Vec<u8>, NoMemory>
    ensures { IfOk result (λ text. text.items ≡ words.now) }
{
    let text = Vec::from_slice(alloc, words)?;
    Ok(text)
}

fn numbered(alloc: Global, words: &[u8], number: u64) -> Result<Vec<u8>, NoMemory>
    ensures { IfOk result (λ text. text.items ≡ words.now ++ decimal number) }
{
    let mut digits = Buffer::new();
    let mut text = Vec::from_slice(alloc, words)?;
    text.extend_from_slice(digits.format(number).as_bytes())?;
    Ok(text)
}

fn illegal(alloc: Global, entry: u64) -> Result<Vec<u8>, NoMemory>
    ensures { IfOk result (λ text.
        text.items ≡ codes "entry " ++ decimal entry ++ codes " illegal") }
{
    let mut text = numbered(alloc, b"entry ", entry)?;
    text.extend_from_slice(b" illegal")?;
    Ok(text)
}

fn digests(
    alloc: Global,
    words: &[u8],
    had: &[u8; 32],
    found: &[u8; 32],
) -> Result<Vec<u8>, NoMemory>
    ensures { IfOk result (λ text. text.items ≡ words.now ++ digests_text had.now found.now) }
{
    let mut text = Vec::from_slice(alloc, words)?;
    text.extend_from_slice(&hexadecimal(had))?;
    text.extend_from_slice(b" found ")?;
    text.extend_from_slice(&hexadecimal(found))?;
    Ok(text)
}

// A digest in lower-case hexadecimal digits.
fn hexadecimal(digest: &[u8; 32]) -> [u8; 64]
    ensures { result ≡ encode_lower digest.now }
{
    let mut digits = [0; 64];
    let Ok(()) = hex::encode_to_slice(digest.as_slice(), &mut digits) else {
        unreachable!()
    };
    digits
}
