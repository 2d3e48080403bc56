//! A book that is a list of numbers.
ghost use Rattle.std.specs.Prelude.{◌≡◌, ◌≤◌, [], length};
ghost use Rattle.book_gate.specs.Views.{StartsWith};

use book_gate::Stands;
use std::alloc::Global;

/// A list of numbers under a name, and how many found no memory.
#[derive(Drop)]
pub struct Numbers {
    pub name: u64,
    pub list: Vec<u64>,
    pub refused: u64,
}

impl Stands for Numbers {
    type Entry = u64;

    type Footing = u64;

    ghost footing = { λ b. b.name };

    ghost list = { λ b. b.list.items };

    ghost settled = { λ b. length b.list.items };

    ghost count = { λ b. b.refused };
}

impl Numbers {
    ghost use Rattle.tests_gate.specs.Books.{IsAdded};

    pub fn new(alloc: Global, name: u64) -> Numbers
        ensures name { result.name ≡ name }
        ensures list { result.list.items ≡ [] }
        ensures refused { result.refused ≡ 0 }
    {
        Numbers {
            name,
            list: Vec::new(alloc),
            refused: 0,
        }
    }

    /// Adds a number, or counts that there was no memory for it.
    pub fn add(&mut self, number: u64)
        ensures name { self.new.name ≡ self.old.name }
        ensures list { StartsWith self.new.list.items self.old.list.items }
        ensures refused { self.old.refused ≤ self.new.refused }
        ensures added { IsAdded number self.old self.new }
    {
        if self.list.push(number).is_err() {
            self.refused = self.refused.saturating_add(1);
        }
    }
}
