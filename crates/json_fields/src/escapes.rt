//! Names as lines and reports write them.

ghost use Rattle.std.specs.Prelude.{◌≡◌, ◌<◌, ◌++◌, IfOk, OnOk};
ghost use Rattle.json_fields.specs.Escapes.{escaped, escaped_byte, is_plain, hex_digit};

use no_memory::NoMemory;
use std::alloc::Global;

/// A name without spaces and line ends: each byte outside 33 to 126, and `%`, is `%` and two
/// upper-case hexadecimal digits.
pub fn escaped(alloc: Global, name: &[u8]) -> Result<Vec<u8>, NoMemory>
    ensures { IfOk result (λ text. text.items ≡ escaped name.now) }
{
    let mut text = Vec::with_capacity(alloc, name.len())?;
    'bytes: for byte in name {
        push_escaped(&mut text, *byte)?;
    }
    Ok(text)
}

fn push_escaped(to: &mut Vec<u8>, byte: u8) -> Result<(), NoMemory>
    ensures { OnOk result (to.new.items ≡ to.old.items ++ escaped_byte byte) }
{
    if is_plain(byte) {
        to.push(byte)?;
        return Ok(());
    }
    to.extend_from_slice(&[b'%', hex_digit(byte / 16), hex_digit(byte % 16)])?;
    Ok(())
}

fn is_plain(byte: u8) -> bool
    ensures { result ≡ is_plain byte }
{
    byte >= 33 && byte <= 126 && byte != b'%'
}

fn hex_digit(value: u8) -> u8
    requires { value < 16 }
    ensures { result ≡ hex_digit value }
{
    if value < 10 { 48 + value } else { 55 + value }
}
