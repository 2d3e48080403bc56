//! The key by which an entry is found.

ghost use Rattle.std.specs.Prelude.{◌≡◌, ◌≤◌, ◌∷◌, length};
ghost use Rattle.std.specs.Cmp.Rules.{hashing};
ghost use Rattle.std.specs.Hash as fed;
ghost use Rattle.std.proofs.Common.{rules};
ghost use Rattle.rail_types.specs.declared.limits.TheConstants.{MAX_OWNER_BYTES};
ghost use Rattle.grant_log.specs.Inside.{key_for};

use rail_types::{MAX_OWNER_BYTES, Name};
use std::hash::{Hash, Hasher};

// An owner's name and number. It is of one size, so that a table with room takes it without memory.
#[derive(Clone, Copy, Debug, PartialEq, Eq)]
pub(crate) struct EntryKey {
    owner: [u8; MAX_OWNER_BYTES],
    owner_bytes: usize,
    number: u64,
}

// The name's bytes are fed in one write: a derived hash would feed each of them by itself. How many
// they are is left out, since a key is full of zeros behind its name.
impl Hash for EntryKey {
    ghost hash_input = { λ key. key.owner ∷ fed.u64 key.number };

    ghost respects_eq = { Prim.search (hashing, rules) };

    fn hash<H: Hasher>(&self, state: &mut H) {
        state.write(&self.owner);
        state.write_u64(self.number);
    }
}

pub(crate) fn entry_key(owner: &Name, number: u64) -> EntryKey
    requires { length owner.now ≤ MAX_OWNER_BYTES }
    ensures { result ≡ key_for owner.now number }
{
    let name = owner.as_bytes();
    let mut bytes = [0; MAX_OWNER_BYTES];
    bytes[..name.len()].copy_from_slice(name);
    EntryKey {
        owner: bytes,
        owner_bytes: name.len(),
        number,
    }
}
