//! Faults as reports write them.

ghost use Rattle.std.specs.Prelude.{◌≡◌, IfOk};
ghost use Rattle.train_file.specs.Texts.{fault_text, limit_fault, name_fault, spot_fault, word_of};

use crate::{TrainFault, What};
use itoa::Buffer;
use json_fields::{Spot, escaped};
use no_memory::NoMemory;
use rail_types::Name;
use std::alloc::Global;

/// The text of a fault, as `missing trains[0].name`; names are escaped.
pub fn fault_text(alloc: Global, fault: &TrainFault) -> Result<Vec<u8>, NoMemory>
    ensures { IfOk result (λ text. text.items ≡ fault_text fault.now) }
{
    match fault {
        TrainFault::NotJson => alone(alloc, b"not-json"),
        TrainFault::Missing { spot } => at_spot(alloc, b"missing ", spot),
        TrainFault::Kind { spot } => at_spot(alloc, b"kind ", spot),
        TrainFault::Zero { spot } => at_spot(alloc, b"zero ", spot),
        TrainFault::Twice { name } => twice(alloc, name),
        TrainFault::Limit { what, count } => past_limit(alloc, *what, count),
        TrainFault::Memory => alone(alloc, b"no-memory"),
    }
}

fn alone(alloc: Global, word: &[u8]) -> Result<Vec<u8>, NoMemory>
    ensures { IfOk result (λ text. text.items ≡ word.now) }
{
    let text = Vec::from_slice(alloc, word)?;
    Ok(text)
}

fn at_spot(alloc: Global, word: &[u8], spot: &Spot) -> Result<Vec<u8>, NoMemory>
    ensures { IfOk result (λ text. text.items ≡ spot_fault word.now spot.now) }
{
    let mut text = Vec::from_slice(alloc, word)?;
    spot.push_text(&mut text)?;
    Ok(text)
}

fn twice(alloc: Global, name: &Name) -> Result<Vec<u8>, NoMemory>
    ensures { IfOk result (λ text. text.items ≡ name_fault name.now) }
{
    let name = escaped(alloc, name.as_bytes())?;
    let mut text = Vec::from_slice(alloc, b"twice ")?;
    text.extend_from_slice(name.as_slice())?;
    Ok(text)
}

fn past_limit(alloc: Global, what: What, count: &i64) -> Result<Vec<u8>, NoMemory>
    ensures { IfOk result (λ text. text.items ≡ limit_fault what count.now) }
{
    let mut digits = Buffer::new();
    let mut text = Vec::from_slice(alloc, b"limit ")?;
    text.extend_from_slice(word_of(what))?;
    text.extend_from_slice(b" ")?;
    text.extend_from_slice(digits.format(*count).as_bytes())?;
    Ok(text)
}

fn word_of(what: What) -> &'static [u8]
    ensures { result.now ≡ word_of what }
{
    match what {
        What::File => b"file",
        What::List => b"list",
        What::Number => b"number",
        What::Name => b"name",
        What::LengthM => b"length_m",
        What::Speed => b"speed",
        What::Accel => b"accel",
        What::Brake => b"brake",
        What::Allowance => b"allowance",
    }
}
