//! Names of clients, trains and places, which contracts see as their bytes.

ghost use Rattle.std.specs.Prelude.{◌≡◌, ◌↔◌, ◌≤◌, [], length, IfOk, IsTrue};

use no_memory::NoMemory;
use std::alloc::Global;
use std::marker::Model;

// Up to how many bytes a name takes no memory of its own.
const BYTES_IN_PLACE: usize = 15;

/// A name. Contracts see the list of its bytes.
#[derive(Debug, Drop)]
pub struct Name {
    // The bytes of a short name, so many as `len`; none of a longer one.
    len: u8,
    place: [u8; BYTES_IN_PLACE],
    // The bytes of a longer name; none of a short one.
    rest: Vec<u8>,
}

impl Model for Name {
    ghost use Rattle.std.specs.Prelude.{◌≡◌, ◌⊎◌, ◌≤◌, ◌++◌, [], List, ℕ, take};

    ghost Value = { List ℕ };

    ghost view = { λ a. take a.len a.place ++ a.rest.items };

    ghost invariant = { λ a. (a.len ≤ 15) × ((a.rest.items ≡ []) ⊎ (a.len ≡ 0)) };
}

impl Name {
    /// The name without a byte.
    pub fn empty(alloc: Global) -> Name
        ensures { result ≡ [] }
    {
        Name {
            len: 0,
            place: [0; BYTES_IN_PLACE],
            rest: Vec::new(alloc),
        }
    }

    /// The name with these bytes.
    pub fn from_bytes(alloc: Global, bytes: &[u8]) -> Result<Name, NoMemory>
        ensures { IfOk result (λ name. name ≡ bytes.now) }
    {
        if bytes.len() > BYTES_IN_PLACE {
            let rest = Vec::from_slice(alloc, bytes)?;
            return Ok(Name {
                len: 0,
                place: [0; BYTES_IN_PLACE],
                rest,
            });
        }
        Ok(short_name(alloc, bytes))
    }

    /// The bytes of the name.
    pub fn as_bytes(&self) -> &[u8]
        ensures { result.now ≡ self.now }
    {
        if self.rest.is_empty() {
            return &self.place[..self.len as usize];
        }
        self.rest.as_slice()
    }

    /// An equal name of its own.
    pub fn copy(&self, alloc: Global) -> Result<Name, NoMemory>
        ensures { IfOk result (λ other. other ≡ self.now) }
    {
        Name::from_bytes(alloc, self.as_bytes())
    }

    /// Whether two names have the same bytes.
    pub fn is_same(&self, other: &Name) -> bool
        ensures { IsTrue result ↔ (self.now ≡ other.now) }
    {
        same_bytes(self.as_bytes(), other.as_bytes())
    }
}

// A name whose bytes stand in place.
fn short_name(alloc: Global, bytes: &[u8]) -> Name
    requires { length bytes.now ≤ 15 }
    ensures { result ≡ bytes.now }
{
    let mut place = [0; BYTES_IN_PLACE];
    let (front, _) = place.split_at_mut(bytes.len());
    front.copy_from_slice(bytes);
    Name {
        len: bytes.len() as u8,
        place,
        rest: Vec::new(alloc),
    }
}

fn same_bytes(a: &[u8], b: &[u8]) -> bool
    ensures { IsTrue result ↔ (a.now ≡ b.now) }
{
    a == b
}
