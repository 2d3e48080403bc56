//! The five kinds of step that a turn is made of, and the wake at its end.
ghost use Rattle.std.specs.Prelude.{◌≡◌, ◌≢◌, ◌≤◌, [], ◌∷◌, true, None};

use crate::gates::{Gate, Pass};
use crate::held::Held;
use crate::plays::{Advance, Look, Take};
use crate::stands::Stands;

// The two words of the table: how many tickets were taken, and which of them is served.
const TICKET: usize = 0;

pub(crate) const SERVING: usize = 1;

impl<S: Stands> Gate<S> {
    ghost use Rattle.book_gate.specs.Passes.{view, opened, turns_left, IsOf, IsIdle, IsInTurn};
    ghost use Rattle.book_gate.specs.Passes.{IsWaiting, IsCalledWith, HasBook};
    ghost use Rattle.book_gate.specs.Steps.{with_ticket, served};
    ghost use Rattle.book_gate.specs.Views.{StartsWith, statement_of};

    pub(crate) fn take_ticket(&self, pass: &mut Pass<S>) -> u64
        requires own { IsOf S.footing self.now pass.old }
        requires idle { IsIdle pass.old }
        requires budget { 1 ≤ turns_left pass.old }
        ensures own { IsOf S.footing self.now pass.new }
        ensures waits { IsWaiting pass.new }
        ensures ticket { view pass.new ≡ with_ticket (view pass.old) result }
    {
        let shared = &self.table.shared;
        shared.fetch_add::<Take>(&mut pass.seat, TICKET, 1)
    }

    // Where the ticket is served, the pass then holds the slot with the book.
    pub(crate) fn look(&self, pass: &mut Pass<S>) -> u64
        requires own { IsOf S.footing self.now pass.old }
        requires waits { IsWaiting pass.old }
        ensures own { IsOf S.footing self.now pass.new }
        ensures called { result ≡ (view pass.old).ticket
            → IsCalledWith (statement_of S.list S.settled S.count) S.footing pass.old pass.new }
        ensures not_yet { result ≢ (view pass.old).ticket → pass.new.seat.me ≡ pass.old.seat.me }
    {
        self.table.shared.load::<Look<S>>(&mut pass.seat, SERVING)
    }

    pub(crate) fn take_out(&self, pass: &mut Pass<S>) -> Held<S>
        requires own { IsOf S.footing self.now pass.old }
        requires called { (b : S) × HasBook b pass.old }
        ensures own { IsOf S.footing self.now pass.new }
        ensures view { view pass.new ≡ view pass.old }
        ensures book { HasBook result pass.old }
        ensures empty { pass.new.seat.me.1 ≡ (0, None) ∷ [] }
    {
        let before = self.table.shared.exchange(&mut pass.seat, 0, None);
        let Some(home) = before else { unreachable!() };
        home.take_out()
    }

    pub(crate) fn put_back(&self, pass: &mut Pass<S>, held: Held<S>)
        requires own { IsOf S.footing self.now pass.old }
        requires turn { IsInTurn pass.old }
        ensures own { IsOf S.footing self.now pass.new }
        ensures view { view pass.new ≡ view pass.old }
        ensures book { HasBook held pass.new }
    {
        let before = self
            .table
            .shared
            .exchange(&mut pass.seat, 0, Some(held.bring_home()));
        let None = before else { unreachable!() };
    }

    // The slot goes home, with a book that goes on from the one that was found. It answers the
    // number of the ticket that was served.
    pub(crate) fn advance(&self, pass: &mut Pass<S>) -> u64
        requires own { IsOf S.footing self.now pass.old }
        requires turn { ((view pass.old).has_ticket ≡ true) × ((view pass.old).has_book ≡ true) }
        requires back { (b : S) × HasBook b pass.old × (S.footing b ≡ S.footing (opened self.now))
            × StartsWith (S.list b) (view pass.old).found.list
            × ((view pass.old).found.count ≤ S.count b) }
        ensures own { IsOf S.footing self.now pass.new }
        ensures idle { IsIdle pass.new }
        ensures served { (b : S) → HasBook b pass.old
            → view pass.new ≡ served (view pass.old) (statement_of S.list S.settled S.count b) }
    {
        let shared = &self.table.shared;
        shared.fetch_add::<Advance<S>>(&mut pass.seat, SERVING, 1)
    }

    // Wakes those that wait behind the ticket of that number, once SERVING is past it. Where no
    // ticket behind it was taken nobody can sleep, and the call to the system is spared. That rests
    // on one order of all steps on both words, since each is sequentially consistent. A thread
    // reads SERVING only after it took its ticket, and sleeps only while the word is what it read,
    // which the kernel compares again. If it read this number, it did so before the word was
    // raised, so its ticket is among those that TICKET counts here. If its ticket is not among
    // those, it took it after the word was raised: it finds itself served, or it sleeps until the
    // end of a later turn, which looks for itself.
    pub(crate) fn wake_behind(&self, number: u64) {
        let taken = self.table.shared.peek(TICKET);
        if taken.wrapping_sub(number) != 1 {
            // Each of those that sleep waits for a number of its own, so all have to look.
            self.table.shared.wake_all(SERVING);
        }
    }
}
