//! Ids that become numbers.

ghost use Rattle.std.specs.Prelude.{◌≡◌, ◌<◌, ◌++◌, ◌∷◌, [], length, false, OnOk, OnErr, IfSome};
ghost use Rattle.rail_types.specs.IdLists.{number_of, is_known};

use indexmap::IndexSet;
use no_memory::NoMemory;
use std::alloc::Global;
use std::marker::Model;

/// The ids of a list's objects in their order, copies that outlive the text that was parsed.
/// Contracts see the list.
#[derive(Drop)]
pub struct Ids {
    set: IndexSet<String>,
}

impl Model for Ids {
    ghost use Rattle.std.specs.Prelude.{List, ℕ, length, map, string_bytes, ◌≤◌};

    ghost Value = { List (List ℕ) };

    ghost view = { λ a. map (λ key. string_bytes key) a.set.keys };

    ghost invariant = { λ a. length a.set.keys ≤ 65536 };
}

impl Ids {
    /// No ids.
    pub fn new(alloc: Global) -> Self
        ensures { result ≡ [] }
    {
        Ids {
            set: IndexSet::new(alloc),
        }
    }

    /// The place of an id in the list.
    pub fn number(&self, id: &str) -> Option<u32>
        ensures number { result ≡ number_of id.now self.now }
        ensures within { IfSome result (λ number. number < length self.now) }
    {
        let place = self.set.get_index_of(id)?;
        Some(place as u32)
    }

    /// Whether the id stands in the list.
    pub fn has(&self, id: &str) -> bool
        ensures { result ≡ is_known id.now self.now }
    {
        self.set.contains(id)
    }

    /// Puts a new id behind the others.
    pub fn push(&mut self, alloc: Global, id: &str) -> Result<(), NoMemory>
        requires room { length self.old < 65536 }
        requires fresh { is_known id.now self.old ≡ false }
        ensures ok { OnOk result (self.new ≡ self.old ++ id.now ∷ []) }
        ensures err { OnErr result (self.new ≡ self.old) }
    {
        let key = String::from_str(alloc, id)?;
        self.set.insert(key)?;
        Ok(())
    }
}
