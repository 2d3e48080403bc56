//! Names as texts spell them, behind what is written already.

ghost use Rattle.std.specs.Prelude.{◌≡◌, ◌+◌, ◌<◌, ◌≤◌, ◌++◌, length, IsOk, OnOk};
ghost use Rattle.std.specs.Io.{StartsWith};
ghost use Rattle.json_fields.specs.Escapes.{escaped, escaped_byte, hex_digit};

use crate::name_text::spellings::is_plain;
use byte_fields::Buffer;
use no_memory::NoMemory;

/// Appends a name as a text spells it. Where there is room for it, no memory is taken; for want of
/// memory a part of it may be there.
pub fn push_escaped(name: &[u8], to: &mut Buffer) -> Result<(), NoMemory>
    ensures ok { OnOk result (to.new.held ≡ to.old.held ++ escaped name.now) }
    ensures kept { StartsWith to.new.held to.old.held }
    ensures room { length (escaped name.now) ≤ to.old.spare → IsOk result }
    ensures spare { to.old.spare ≤ to.new.spare + length (escaped name.now) }
{
    'bytes: for byte in name {
        let Ok(()) = push_byte(*byte, to) else {
            return Err(NoMemory);
        };
    }
    Ok(())
}

fn push_byte(byte: u8, to: &mut Buffer) -> Result<(), NoMemory>
    ensures ok { OnOk result (to.new.held ≡ to.old.held ++ escaped_byte byte) }
    ensures kept { StartsWith to.new.held to.old.held }
    ensures room { length (escaped_byte byte) ≤ to.old.spare → IsOk result }
    ensures spare { to.old.spare ≤ to.new.spare + length (escaped_byte byte) }
{
    if is_plain(byte) {
        return to.extend(&[byte]);
    }
    to.extend(&[b'%', hex_digit(byte / 16), hex_digit(byte % 16)])
}

fn hex_digit(value: u8) -> u8
    requires { value < 16 }
    ensures { result ≡ hex_digit value }
{
    if value < 10 { 48 + value } else { 55 + value }
}
