//! How the disks of the order that words spell are opened.

ghost use Rattle.std.specs.Prelude.{◌≡◌, IfOk, map, string_bytes};
ghost use Rattle.osrd_stdcm.specs.Access.{IsAccessFor, IsAccessForWords, IsMovedFrom};

use command_words::{Order, Text, WordsFault, read_words};
use no_memory::NoMemory;
use outside_io::DiskAccess;
use std::alloc::Global;

/// How a machine opens the disks of the order that the words spell, to be handed to it: what only
/// reads a journal has it opened only to be read, and so has an old journal what moves or carries
/// it. Words that spell no order open none.
pub fn access_of_words(alloc: Global, words: &[String]) -> Result<DiskAccess, NoMemory>
    ensures { IfOk result (IsAccessForWords (map string_bytes words.now)) }
{
    match read_words(alloc, words) {
        Ok(order) => access_of(alloc, &order),
        Err(WordsFault::NotUnderstood) => Ok(DiskAccess::Writing),
        Err(WordsFault::Memory) => Err(NoMemory),
    }
}

// How the disks of an order are opened.
fn access_of(alloc: Global, order: &Order) -> Result<DiskAccess, NoMemory>
    ensures { IfOk result (IsAccessFor order.now) }
{
    match order {
        Order::Stairs { .. } | Order::Capacity { .. } | Order::Check { .. } => {
            Ok(DiskAccess::Reading)
        }
        Order::Init {
            from: Some(from),
            ..
        }
        | Order::Carry { from, .. } => moved_from(alloc, from),
        _ => Ok(DiskAccess::Writing),
    }
}

// Only what has this name is only read.
fn moved_from(alloc: Global, from: &Text) -> Result<DiskAccess, NoMemory>
    ensures { IfOk result (IsMovedFrom from.now) }
{
    let from = String::from_str(alloc, from.as_str())?;
    Ok(DiskAccess::Moving { from })
}
