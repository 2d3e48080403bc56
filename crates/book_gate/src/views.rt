//! What a pass knows. It exists in proofs alone: no value but of `Opening` is made.
use std::collections::LinkedList;
use std::snapshot::Snapshot;

/// What a book stands for at one moment: its entries, how many of them are
/// settled, and its count of faults.
pub struct Statement<E> {
    pub list: LinkedList<E>,
    pub settled: u64,
    pub count: u64,
}

/// A statement in three numbers: of entries, of settled entries, and of faults.
pub struct Mark {
    pub entries: u64,
    pub settled: u64,
    pub count: u64,
}

/// A turn that was served. Its number is its ticket.
pub struct Turn {
    pub number: u64,
    pub found: Mark,
    pub left: Mark,
}

/// What a gate was made with: the footing of its book, and how many turns it may serve.
pub struct Origin<F> {
    pub footing: F,
    pub turns: u64,
}

/// What a pass knows. A spent one has no origin.
pub struct View<E, F> {
    pub origin: Option<Origin<F>>,
    // The list and the count of the book as the pass knows them.
    pub seen: LinkedList<E>,
    pub count: u64,
    // The lists that passes joined into this one had seen, and its own before each join.
    pub joined: LinkedList<LinkedList<E>>,
    pub turns: LinkedList<Turn>,
    pub share: u64,
    // Its place in the queue, where it has one.
    pub has_ticket: bool,
    pub ticket: u64,
    // In a turn: what the book stood for when it was taken out.
    pub has_book: bool,
    pub found: Statement<E>,
}

/// What a gate is told once, when it is made.
#[derive(Drop)]
pub struct Opening<S> {
    pub turns: u64,
    pub book: Snapshot<S>,
}
