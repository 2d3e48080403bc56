//! A list of objects with an index of their ids.

ghost use Rattle.std.specs.Prelude.{◌≡◌, ◌<◌, ◌++◌, ◌∷◌, [], false, length, map, OnOk, IfSome};
ghost use Rattle.rail_types.specs.IdLists.{number_of, is_known};

use crate::id_lists::ids::Ids;
use no_memory::NoMemory;
use std::alloc::Global;
use std::marker::Model;

/// What has an id.
pub trait HasId {
    ghost use Rattle.std.specs.Prelude.{List, ℕ};

    ghost id: { Self → List ℕ };
}

/// Objects in their order, found by their ids. Contracts see the list of objects.
#[derive(Drop)]
pub struct Listed<T: HasId> {
    items: Vec<T>,
    ids: Ids,
}

impl<T: HasId> Model for Listed<T> {
    ghost use Rattle.std.specs.Prelude.{List as list_of, ◌≡◌, map};

    ghost Value = { list_of T };

    ghost view = { λ a. a.items.items };

    ghost invariant = { λ a. a.ids ≡ map T.id a.items.items };
}

impl<T: HasId> Listed<T> {
    /// No objects.
    pub fn new(alloc: Global) -> Self
        ensures { result ≡ [] }
    {
        Listed {
            items: Vec::new(alloc),
            ids: Ids::new(alloc),
        }
    }

    /// The number of the object with this id.
    pub fn number(&self, id: &str) -> Option<u32>
        ensures number { result ≡ number_of id.now (map T.id self.now) }
        ensures within { IfSome result (λ number. number < length self.now) }
    {
        self.ids.number(id)
    }

    /// Whether an object has this id.
    pub fn has(&self, id: &str) -> bool
        ensures { result ≡ is_known id.now (map T.id self.now) }
    {
        self.ids.has(id)
    }

    /// Puts an object with a new id behind the others.
    pub fn push(&mut self, alloc: Global, item: T, id: &str) -> Result<(), NoMemory>
    where
        T: Drop,
        requires id { T.id item ≡ id.now }
        requires fresh { is_known id.now (map T.id self.old) ≡ false }
        requires room { length self.old < 65536 }
        ensures ok { OnOk result (self.new ≡ self.old ++ item ∷ []) }
    {
        self.items.reserve(1)?;
        self.ids.push(alloc, id)?;
        self.items.push_reserved(item);
        Ok(())
    }

    /// How many objects there are.
    pub fn len(&self) -> usize
        ensures { result ≡ length self.now }
    {
        self.items.len()
    }

    /// The objects as a slice.
    pub fn as_slice(&self) -> &[T]
        ensures { result.now ≡ self.now }
    {
        self.items.as_slice()
    }

    /// The objects alone.
    pub fn into_items(self) -> Vec<T>
        ensures { result.items ≡ self }
    {
        let Listed { items, ids: _ids } = self;
        items
    }
}
