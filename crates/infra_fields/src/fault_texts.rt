//! Faults as reports write them.

ghost use Rattle.std.specs.Prelude.{◌≡◌, ◌++◌, IfOk, OnOk};
ghost use Rattle.infra_fields.specs.Texts.{fault_text, spot_fault, id_fault, unknown_fault};
ghost use Rattle.infra_fields.specs.Texts.{limit_fault, word_of};

use crate::{InfraFault, What};
use itoa::Buffer;
use json_fields::{Spot, escaped};
use no_memory::NoMemory;
use rail_types::Name;
use std::alloc::Global;

/// The text of a fault, as `missing track_sections[0].id`; ids are escaped.
pub fn fault_text(alloc: Global, fault: &InfraFault) -> Result<Vec<u8>, NoMemory>
    ensures { IfOk result (λ text. text.items ≡ fault_text fault.now) }
{
    match fault {
        InfraFault::NotJson => alone(alloc, b"not-json"),
        InfraFault::Missing { spot } => at_spot(alloc, b"missing ", spot),
        InfraFault::Kind { spot } => at_spot(alloc, b"kind ", spot),
        InfraFault::Fraction { spot } => at_spot(alloc, b"fraction ", spot),
        InfraFault::Negative { spot } => at_spot(alloc, b"negative ", spot),
        InfraFault::Unknown { id, spot } => unknown(alloc, id, spot),
        InfraFault::Twice { id } => of_id(alloc, b"twice ", id),
        InfraFault::SwitchType { id } => of_id(alloc, b"switch-type ", id),
        InfraFault::Limit { what, count } => past_limit(alloc, *what, count),
        InfraFault::Memory => alone(alloc, b"no-memory"),
    }
}

fn alone(alloc: Global, word: &[u8]) -> Result<Vec<u8>, NoMemory>
    ensures { IfOk result (λ text. text.items ≡ word.now) }
{
    let text = Vec::from_slice(alloc, word)?;
    Ok(text)
}

fn at_spot(alloc: Global, word: &[u8], spot: &Spot) -> Result<Vec<u8>, NoMemory>
    ensures { IfOk result (λ text. text.items ≡ spot_fault word.now spot.now) }
{
    let mut text = Vec::from_slice(alloc, word)?;
    spot.push_text(&mut text)?;
    Ok(text)
}

fn of_id(alloc: Global, word: &[u8], id: &Name) -> Result<Vec<u8>, NoMemory>
    ensures { IfOk result (λ text. text.items ≡ id_fault word.now id.now) }
{
    let mut text = Vec::from_slice(alloc, word)?;
    let id = escaped(alloc, id.as_bytes())?;
    text.extend_from_slice(id.as_slice())?;
    Ok(text)
}

fn unknown(alloc: Global, id: &Name, spot: &Spot) -> Result<Vec<u8>, NoMemory>
    ensures { IfOk result (λ text. text.items ≡ unknown_fault id.now spot.now) }
{
    let mut text = of_id(alloc, b"unknown ", id)?;
    text.extend_from_slice(b" at ")?;
    spot.push_text(&mut text)?;
    Ok(text)
}

fn past_limit(alloc: Global, what: What, count: &i64) -> Result<Vec<u8>, NoMemory>
    ensures { IfOk result (λ text. text.items ≡ limit_fault what count.now) }
{
    let mut digits = Buffer::new();
    let mut text = Vec::from_slice(alloc, b"limit ")?;
    text.extend_from_slice(word_of(what))?;
    text.extend_from_slice(b" ")?;
    text.extend_from_slice(digits.format(*count).as_bytes())?;
    Ok(text)
}

fn word_of(what: What) -> &'static [u8]
    ensures { result.now ≡ word_of what }
{
    match what {
        What::File => b"file",
        What::List => b"list",
        What::Id => b"id",
        What::Number => b"number",
        What::Length => b"length",
        What::Sight => b"sight",
        What::Speed => b"speed",
    }
}
