//! Stacks whose items stand in one list.

ghost use Rattle.std.specs.Prelude.{◌≡◌, ℕ, ◌+◌, ◌<◌, ◌++◌, ◌∷◌, [], length, max};
ghost use Rattle.std.specs.Prelude.{slice_index_or, slice_set, IfNone, IfSome, OnErr, OnOk};
ghost use Rattle.many_stacks.specs.Stacks.{IsTaken};

use no_memory::NoMemory;
use std::alloc::Global;
use std::marker::Model;

// An item of a stack, and one more than the number of the item below it, or 0 below the lowest.
#[derive(Clone, Copy)]
pub(crate) struct Node<T> {
    item: T,
    below: usize,
}

/// Stacks by their numbers. Contracts see the list of them, each with its topmost item behind the
/// others. An empty stack takes the room of a number; that of items which were taken is given back
/// with all stacks.
#[derive(Drop)]
pub struct Stacks<T: Copy> {
    // Of each stack one more than the number of its topmost item, or 0 where it has none.
    tops: Vec<usize>,
    nodes: Vec<Node<T>>,
}

impl<T: Copy> Model for Stacks<T> {
    ghost use Rattle.std.specs.Prelude.{List as list_of};
    ghost use Rattle.many_stacks.specs.Stacks.{AreLinked, stacks_of};

    ghost Value = { list_of (list_of T) };

    ghost view = { λ a. stacks_of a.tops.items a.nodes.items };

    ghost invariant = { λ a. AreLinked a.tops.items a.nodes.items };
}

impl<T: Copy> Stacks<T> {
    /// None yet, with room for so many items where there is memory for it.
    pub fn with_room(alloc: Global, items: usize) -> Self
        ensures { result ≡ [] }
    {
        Stacks {
            tops: Vec::new(alloc),
            nodes: empty_with_room(alloc, items),
        }
    }

    /// How many there are.
    pub fn len(&self) -> usize
        ensures { result ≡ length self.now }
    {
        self.tops.len()
    }

    /// Adds empty ones until there is one of this number; where there is no memory for them, all
    /// stay as they were.
    pub fn reach(&mut self, number: usize) -> Result<(), NoMemory>
        ensures count { OnOk result (length self.new ≡ max (length self.old) (number + 1)) }
        ensures kept { (one : ℕ) → slice_index_or self.new one []
            ≡ slice_index_or self.old one [] }
        ensures err { OnErr result (self.new ≡ self.old) }
    {
        if number < self.tops.len() {
            return Ok(());
        }
        let Some(count) = number.checked_add(1) else {
            return Err(NoMemory);
        };
        self.tops.resize(count, 0)?;
        Ok(())
    }

    /// Puts an item on one of them.
    pub fn push(&mut self, number: usize, item: T) -> Result<(), NoMemory>
        requires { number < length self.old }
        ensures ok { OnOk result (self.new ≡ slice_set self.old number
            (slice_index_or self.old number [] ++ item ∷ [])) }
        ensures err { OnErr result (self.new ≡ self.old) }
    {
        self.nodes.push(Node {
            item,
            below: self.tops[number],
        })?;
        self.tops[number] = self.nodes.len();
        Ok(())
    }

    /// Takes the topmost item of one of them.
    pub fn pop(&mut self, number: usize) -> Option<T>
        requires { number < length self.old }
        ensures some { IfSome result (IsTaken number self.old self.new) }
        ensures none { IfNone result (slice_index_or self.old number [] ≡ []) }
        ensures kept { IfNone result (self.new ≡ self.old) }
    {
        let top = self.tops[number];
        if top == 0 {
            return None;
        }
        let node = self.nodes[top - 1];
        self.tops[number] = node.below;
        Some(node.item)
    }
}

// An empty list, with room for so many items where there is memory for it.
fn empty_with_room<T>(alloc: Global, items: usize) -> Vec<T>
    ensures { result.items ≡ [] }
{
    match Vec::with_capacity(alloc, items) {
        Ok(list) => list,
        Err(_) => Vec::new(alloc),
    }
}
