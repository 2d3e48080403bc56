//! The numbers by which lines ask.

ghost use Rattle.std.specs.Prelude.{◌≡◌, ◌≤◌, [], All, IfOk, length};
ghost use Rattle.served_clients.specs.lines.declared.lines.TheConstants.{MAX_LINE_BYTES};
ghost use Rattle.batch_command.specs.Numbers.{AreNumbered, asked_number, first_repeat, has};
ghost use Rattle.batch_command.specs.Numbers.{IsNumbered};

use indexmap::IndexSet;
use no_memory::NoMemory;
use rail_types::Name;
use served_clients::lines::{Ask, Known, Line, LineFault, read_line};
use std::alloc::Global;

/// The number by which each line asks for a path: None for a line that does
/// not, or that is not in the form.
pub fn numbers_of(
    alloc: Global,
    lines: &[Name],
    known: &Known,
) -> Result<Vec<Option<u64>>, NoMemory>
    requires { All (λ line. length line ≤ MAX_LINE_BYTES) lines.now }
    ensures { IfOk result (λ numbers. AreNumbered known.now lines.now numbers.items) }
{
    let mut numbers = Vec::new(alloc);
    for line in lines {
        let number = line_number(alloc, line.as_bytes(), known)?;
        numbers.push(number)?;
    }
    Ok(numbers)
}

// The number by which a line asks.
fn line_number(alloc: Global, line: &[u8], known: &Known) -> Result<Option<u64>, NoMemory>
    requires { length line.now ≤ MAX_LINE_BYTES }
    ensures { IfOk result (IsNumbered known.now line.now) }
{
    match read_line(alloc, line, known) {
        Ok(line) => Ok(asked_number(&line)),
        Err(LineFault::Bad { .. }) => Ok(None),
        Err(LineFault::Memory) => Err(NoMemory),
    }
}

// The number by which a line asks for a path, None where it asks for something else.
fn asked_number(line: &Line) -> Option<u64>
    ensures { result ≡ asked_number line.now.ask }
{
    match line.ask {
        Ask::Path(number, _) => Some(number),
        _ => None,
    }
}

/// The number of the first line that has the number of an earlier one, and None where all differ.
pub fn first_twice(alloc: Global, numbers: &[Option<u64>]) -> Result<Option<u64>, NoMemory>
    ensures { IfOk result (λ twice. twice ≡ first_repeat [] numbers.now) }
{
    let mut before = IndexSet::new(alloc);
    for one in numbers {
        if let Some(number) = *one {
            if has(&before, number) {
                return Ok(Some(number));
            }
            before.insert(number)?;
        }
    }
    Ok(None)
}

// Whether the number is in the set.
fn has(numbers: &IndexSet<u64>, number: u64) -> bool
    ensures { result ≡ has numbers.now.keys number }
{
    numbers.contains(&number)
}
