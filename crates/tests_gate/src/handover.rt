//! Two passes that take turns by hand.

use crate::numbers::Numbers;
use book_gate::Gate;
use no_memory::NoMemory;
use std::alloc::Global;
use std::sync::Wait;

/// How many turns were served while the first was open, and when all passes were
/// one; and the book in the end.
#[derive(Drop)]
pub struct Handover {
    pub open: u64,
    pub closed: u64,
    pub book: Numbers,
}

/// The second pass adds 5, the first adds 6, and the second adds 7.
pub fn hand_over<R: Wait>(rt: &R, alloc: Global) -> Result<Handover, NoMemory> {
    let numbers = Numbers::new(alloc, 7);
    let (gate, mut first) = match Gate::new(alloc, numbers, 3) {
        Ok(made) => made,
        Err((_numbers, refused)) => return Err(refused),
    };
    let mut second = gate.split(&mut first, 2);
    let mut held = gate.enter(rt, &mut second);
    // A turn that is open is not served yet.
    let open = gate.meet(&mut first);
    held.book().add(5);
    gate.leave(&mut second, held);
    let mut held = gate.enter(rt, &mut first);
    held.book().add(6);
    gate.leave(&mut first, held);
    let mut held = gate.enter(rt, &mut second);
    held.book().add(7);
    gate.leave(&mut second, held);
    gate.join(&mut first, second);
    let closed = gate.meet(&mut first);
    let book = gate.close(first);
    Ok(Handover { open, closed, book })
}
