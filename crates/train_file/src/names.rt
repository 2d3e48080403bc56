//! Names that become numbers.

ghost use Rattle.std.specs.Prelude.{◌≡◌, ◌<◌, ◌++◌, ◌∷◌, [], false, length, position, OnOk, OnErr};
ghost use Rattle.std.specs.List.{list_any};
ghost use Rattle.std.specs.Str.{bytes_eq};
ghost use Rattle.rail_types.specs.declared.limits.TheConstants.{MAX_TRAINS};

use indexmap::IndexSet;
use no_memory::NoMemory;
use std::alloc::Global;
use std::marker::Model;

/// Different names in their order, found without going through them. Contracts see the list.
#[derive(Debug, Drop)]
pub struct Names {
    set: IndexSet<Vec<u8>>,
}

impl Model for Names {
    ghost use Rattle.std.specs.Prelude.{List, ℕ, length, map, ◌≤◌};

    ghost Value = { List (List ℕ) };

    ghost view = { λ a. map (λ key. key.items) a.set.keys };

    ghost invariant = { λ a. length a.set.keys ≤ 65536 };
}

impl Names {
    pub(crate) fn new(alloc: Global) -> Self
        ensures { result ≡ [] }
    {
        Names {
            set: IndexSet::new(alloc),
        }
    }

    /// The place of a name in the list.
    pub(crate) fn number(&self, name: &[u8]) -> Option<usize>
        ensures { result ≡ position (bytes_eq name.now) self.now }
    {
        self.set.get_index_of(name)
    }

    /// Whether the name stands in the list.
    pub(crate) fn has(&self, name: &[u8]) -> bool
        ensures { result ≡ list_any (bytes_eq name.now) self.now }
    {
        self.set.contains(name)
    }

    /// Puts a new name behind the others.
    pub(crate) fn push(&mut self, alloc: Global, name: &[u8]) -> Result<(), NoMemory>
        requires room { length self.old < MAX_TRAINS }
        requires fresh { list_any (bytes_eq name.now) self.old ≡ false }
        ensures ok { OnOk result (self.new ≡ self.old ++ name.now ∷ []) }
        ensures err { OnErr result (self.new ≡ self.old) }
    {
        let key = Vec::from_slice(alloc, name)?;
        self.set.insert(key)?;
        Ok(())
    }
}
