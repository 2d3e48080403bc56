//! Words with a number or a name behind them.

ghost use Rattle.std.specs.Prelude.{◌≡◌, ◌++◌, OnOk};
ghost use Rattle.stairway_print.specs.Words.{numbered, named};

use itoa::Buffer;
use json_fields::escaped;
use no_memory::NoMemory;
use std::alloc::Global;

/// Appends a word and a number.
pub(crate) fn push_number(to: &mut Vec<u8>, word: &[u8], number: u64) -> Result<(), NoMemory>
    ensures { OnOk result (to.new.items ≡ to.old.items ++ numbered word.now number) }
{
    let mut digits = Buffer::new();
    to.extend_from_slice(word)?;
    to.extend_from_slice(digits.format(number).as_bytes())?;
    Ok(())
}

/// Appends a word and a name.
pub(crate) fn push_name(
    alloc: Global,
    to: &mut Vec<u8>,
    word: &[u8],
    name: &[u8],
) -> Result<(), NoMemory>
    ensures { OnOk result (to.new.items ≡ to.old.items ++ named word.now name.now) }
{
    let name = escaped(alloc, name)?;
    to.extend_from_slice(word)?;
    to.extend_from_slice(name.as_slice())?;
    Ok(())
}
