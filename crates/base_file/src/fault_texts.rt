//! Faults as reports write them.

ghost use Rattle.std.specs.Prelude.{◌≡◌, IfOk};
ghost use Rattle.base_file.specs.Texts.{fault_text, spot_fault, zone_fault, overlap_fault};
ghost use Rattle.base_file.specs.Texts.{limit_fault, word_of};

use crate::{BaseFault, What};
use itoa::Buffer;
use json_fields::Spot;
use no_memory::NoMemory;
use std::alloc::Global;

/// The text of a fault, as `missing trains[0].name`.
pub fn fault_text(alloc: Global, fault: &BaseFault) -> Result<Vec<u8>, NoMemory>
    ensures { IfOk result (λ text. text.items ≡ fault_text fault.now) }
{
    match fault {
        BaseFault::NotJson => alone(alloc, b"not-json"),
        BaseFault::Missing { spot } => at_spot(alloc, b"missing ", spot),
        BaseFault::Kind { spot } => at_spot(alloc, b"kind ", spot),
        BaseFault::ZoneUnknown { spot, zone } => zone_unknown(alloc, spot, zone),
        BaseFault::EmptySpan { spot } => at_spot(alloc, b"empty-span ", spot),
        BaseFault::Overlap { zone, a, b } => overlap(alloc, *zone, *a, *b),
        BaseFault::Limit { what, count } => past_limit(alloc, *what, count),
        BaseFault::Memory => alone(alloc, b"no-memory"),
    }
}

fn alone(alloc: Global, word: &[u8]) -> Result<Vec<u8>, NoMemory>
    ensures { IfOk result (λ text. text.items ≡ word.now) }
{
    let text = Vec::from_slice(alloc, word)?;
    Ok(text)
}

fn at_spot(alloc: Global, word: &[u8], spot: &Spot) -> Result<Vec<u8>, NoMemory>
    ensures { IfOk result (λ text. text.items ≡ spot_fault word.now spot.now) }
{
    let mut text = Vec::from_slice(alloc, word)?;
    spot.push_text(&mut text)?;
    Ok(text)
}

fn zone_unknown(alloc: Global, spot: &Spot, zone: &i64) -> Result<Vec<u8>, NoMemory>
    ensures { IfOk result (λ text. text.items ≡ zone_fault spot.now zone.now) }
{
    let mut digits = Buffer::new();
    let mut text = at_spot(alloc, b"zone-unknown ", spot)?;
    text.extend_from_slice(b" ")?;
    text.extend_from_slice(digits.format(*zone).as_bytes())?;
    Ok(text)
}

fn overlap(alloc: Global, zone: u32, a: u32, b: u32) -> Result<Vec<u8>, NoMemory>
    ensures { IfOk result (λ text. text.items ≡ overlap_fault zone a b) }
{
    let mut digits = Buffer::new();
    let mut text = Vec::from_slice(alloc, b"overlap zone ")?;
    text.extend_from_slice(digits.format(zone).as_bytes())?;
    text.extend_from_slice(b" trains ")?;
    text.extend_from_slice(digits.format(a).as_bytes())?;
    text.extend_from_slice(b" ")?;
    text.extend_from_slice(digits.format(b).as_bytes())?;
    Ok(text)
}

fn past_limit(alloc: Global, what: What, count: &i64) -> Result<Vec<u8>, NoMemory>
    ensures { IfOk result (λ text. text.items ≡ limit_fault what count.now) }
{
    let mut digits = Buffer::new();
    let mut text = Vec::from_slice(alloc, b"limit ")?;
    text.extend_from_slice(word_of(what))?;
    text.extend_from_slice(b" ")?;
    text.extend_from_slice(digits.format(*count).as_bytes())?;
    Ok(text)
}

fn word_of(what: What) -> &'static [u8]
    ensures { result.now ≡ word_of what }
{
    match what {
        What::File => b"file",
        What::List => b"list",
        What::Number => b"number",
        What::TickS => b"tick_s",
        What::Setting => b"setting",
        What::Release => b"release",
        What::Horizon => b"horizon",
        What::JournalBytes => b"journal_bytes",
        What::SpeedLoss => b"speed_loss",
        What::Name => b"name",
        What::From => b"from",
        What::To => b"to",
    }
}
