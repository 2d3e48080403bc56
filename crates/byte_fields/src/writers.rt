//! Numbers and bytes at the end of a buffer, most significant byte first.

ghost use Rattle.std.specs.Prelude.{◌≡◌, ◌+◌, ◌≤◌, ◌++◌, ◌∷◌, [], length, OnOk, OnErr, IsOk};
ghost use Rattle.std.specs.Int.{w32, w64, to_be_bytes};
ghost use Rattle.byte_fields.specs.Unread.{signed_bytes};

use crate::buffers::Buffer;
use no_memory::NoMemory;

/// Appends one byte. For want of memory nothing changes.
#[inline(always)]
pub fn put_u8(to: &mut Buffer, v: u8) -> Result<(), NoMemory>
    ensures ok { OnOk result (to.new.held ≡ to.old.held ++ v ∷ []) }
    ensures err { OnErr result (to.new ≡ to.old) }
    ensures room { 1 ≤ to.old.spare → IsOk result }
    ensures spare { to.old.spare ≤ to.new.spare + 1 }
{
    to.extend(&[v])
}

/// Appends the number's four bytes. For want of memory nothing changes.
#[inline(always)]
pub fn put_u32(to: &mut Buffer, v: u32) -> Result<(), NoMemory>
    ensures ok { OnOk result (to.new.held ≡ to.old.held ++ to_be_bytes w32 v) }
    ensures err { OnErr result (to.new ≡ to.old) }
    ensures room { 4 ≤ to.old.spare → IsOk result }
    ensures spare { to.old.spare ≤ to.new.spare + 4 }
{
    let four = v.to_be_bytes();
    to.extend(&four)
}

/// Appends the number's eight bytes. For want of memory nothing changes.
#[inline(always)]
pub fn put_u64(to: &mut Buffer, v: u64) -> Result<(), NoMemory>
    ensures ok { OnOk result (to.new.held ≡ to.old.held ++ to_be_bytes w64 v) }
    ensures err { OnErr result (to.new ≡ to.old) }
    ensures room { 8 ≤ to.old.spare → IsOk result }
    ensures spare { to.old.spare ≤ to.new.spare + 8 }
{
    let eight = v.to_be_bytes();
    to.extend(&eight)
}

/// Appends the signed number's eight bytes, in two's complement. For
/// want of memory nothing changes.
#[inline(always)]
pub fn put_i64(to: &mut Buffer, v: i64) -> Result<(), NoMemory>
    ensures ok { OnOk result (to.new.held ≡ to.old.held ++ signed_bytes v) }
    ensures err { OnErr result (to.new ≡ to.old) }
    ensures room { 8 ≤ to.old.spare → IsOk result }
    ensures spare { to.old.spare ≤ to.new.spare + 8 }
{
    put_u64(to, v.cast_unsigned())
}

/// Appends the bytes as they are, without their count. For want of memory nothing changes.
pub fn put_bytes(to: &mut Buffer, v: &[u8]) -> Result<(), NoMemory>
    ensures ok { OnOk result (to.new.held ≡ to.old.held ++ v.now) }
    ensures err { OnErr result (to.new ≡ to.old) }
    ensures room { length v.now ≤ to.old.spare → IsOk result }
    ensures spare { to.old.spare ≤ to.new.spare + length v.now }
{
    to.extend(v)
}
