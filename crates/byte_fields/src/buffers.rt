//! A text of bytes that grows.

ghost use Rattle.std.specs.Prelude.{◌≡◌, ◌+◌, ◌≤◌, ◌++◌, ◌↔◌, [], length, take, OnOk, OnErr, IsOk};
ghost use Rattle.std.specs.Prelude.{IsTrue, vec_capacity, vec_len};

use no_memory::NoMemory;
use std::alloc::Global;
use std::marker::Model;

// Up to how many bytes are put one by one, which for so few takes less than a copy of the whole.
const FEW_BYTES: usize = 8;

/// Bytes that grow at their end, and the room that they have. A call that finds
/// room enough takes no memory.
#[derive(Debug, Drop)]
pub struct Buffer {
    bytes: Vec<u8>,
}

impl Model for Buffer {
    ghost use Rattle.std.specs.Prelude.{◌-◌, vec_capacity, vec_len};
    ghost use Rattle.byte_fields.specs.Buffered.{Buffered};

    ghost Value = { Buffered };

    ghost view = { λ b.
        record { held = b.bytes.items; spare = vec_capacity b.bytes - vec_len b.bytes } };
}

impl Buffer {
    /// An empty one, for which no memory is taken.
    pub fn new(alloc: Global) -> Self
        ensures { result.held ≡ [] }
    {
        Buffer {
            bytes: Vec::new(alloc),
        }
    }

    /// Makes room for `count` more bytes.
    pub fn reserve(&mut self, count: usize) -> Result<(), NoMemory>
        ensures held { self.new.held ≡ self.old.held }
        ensures ok { OnOk result (count ≤ self.new.spare) }
        ensures err { OnErr result (self.new ≡ self.old) }
        ensures spare { self.old.spare ≤ self.new.spare }
        ensures room { count ≤ self.old.spare → IsOk result }
    {
        self.bytes.reserve(count)?;
        Ok(())
    }

    /// Appends the bytes.
    #[inline(always)]
    pub fn extend(&mut self, more: &[u8]) -> Result<(), NoMemory>
        ensures ok { OnOk result (self.new.held ≡ self.old.held ++ more.now) }
        ensures err { OnErr result (self.new ≡ self.old) }
        ensures room { length more.now ≤ self.old.spare → IsOk result }
        ensures spare { self.old.spare ≤ self.new.spare + length more.now }
    {
        self.bytes.reserve(more.len())?;
        if more.len() <= FEW_BYTES {
            push_each(&mut self.bytes, more);
            return Ok(());
        }
        let Ok(()) = self.bytes.extend_from_slice(more) else {
            unreachable!()
        };
        Ok(())
    }

    /// The bytes held.
    pub fn as_slice(&self) -> &[u8]
        ensures { result.now ≡ self.now.held }
    {
        self.bytes.as_slice()
    }

    /// How many bytes are held.
    pub fn len(&self) -> usize
        ensures { result ≡ length self.now.held }
    {
        self.bytes.len()
    }

    /// Whether no byte is held.
    pub fn is_empty(&self) -> bool
        ensures { IsTrue result ↔ (self.now.held ≡ []) }
    {
        self.bytes.is_empty()
    }

    /// How many more bytes have room.
    pub fn spare(&self) -> usize
        ensures { result ≡ self.now.spare }
    {
        self.bytes.capacity() - self.bytes.len()
    }

    /// Lets go of the bytes held, and keeps their room.
    pub fn clear(&mut self)
        ensures held { self.new.held ≡ [] }
        ensures spare { self.new.spare ≡ self.old.spare + length self.old.held }
    {
        self.bytes.clear();
    }

    /// Lets go of all but the first `count` bytes held, and keeps their room.
    pub fn truncate(&mut self, count: usize)
        ensures held { self.new.held ≡ take count self.old.held }
        ensures spare { self.old.spare ≤ self.new.spare }
    {
        self.bytes.truncate(count);
    }

    /// The bytes held, as a `Vec`.
    pub fn into_vec(self) -> Vec<u8>
        ensures { result.items ≡ self.held }
    {
        let Buffer { bytes } = self;
        bytes
    }
}

// Puts bytes behind the others, for which there is room.
#[inline(always)]
fn push_each(bytes: &mut Vec<u8>, more: &[u8])
    requires { vec_len bytes.old + length more.now ≤ vec_capacity bytes.old }
    ensures items { bytes.new.items ≡ bytes.old.items ++ more.now }
    ensures room { vec_capacity bytes.new ≡ vec_capacity bytes.old }
{
    for byte in more {
        bytes.push_reserved(*byte);
    }
}
