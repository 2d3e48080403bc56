//! The gate and its passes.
ghost use Rattle.std.specs.Prelude.{◌≡◌, ℕ, ◌+◌, ◌-◌, ◌^◌, ◌≤◌, ◌<◌, [], ◌∷◌, ◌++◌, All};
ghost use Rattle.std.specs.Prelude.{IsPermutation, length, IfOk, IfErr, true, false, Some, None};

use crate::held::{Held, Home};
use crate::plays::{Amount, Give, Meet, TakeIn, Turns};
use crate::stands::Stands;
use crate::steps::SERVING;
use crate::views::{Opening, View};
use atomic_table::{Refused, Seat, Table};
use no_memory::NoMemory;
use std::alloc::Global;
use std::marker::Brand;
use std::snapshot::Snapshot;
use std::sync::Wait;
use std::thread;

// How often a thread that waits looks before it sleeps.
const LOOKS: u32 = 16;

/// Keeps one book, which threads take out in turns.
#[derive(Drop)]
pub struct Gate<S: Stands> {
    pub(crate) table: Table<
        Option<Home<S>>,
        View<S::Entry, S::Footing>,
        Opening<S>,
        Turns<S>,
        Global,
    >,
    ghost sizes: { (table.shared.table_id.words ≡ 2) × (table.shared.table_id.slots ≡ 1) },
}

/// What a caller takes turns with. It has no bytes.
#[derive(Drop)]
pub struct Pass<S: Stands> {
    pub(crate) seat: Seat<Option<Home<S>>, View<S::Entry, S::Footing>>,
}

impl<S: Stands> Gate<S> {
    ghost use Rattle.book_gate.specs.Passes.{view, opened, turns_given, turns_left, IsOf, IsIdle};
    ghost use Rattle.book_gate.specs.Passes.{IsInTurn, IsWaiting, IsCalledWith, OpensTurn};
    ghost use Rattle.book_gate.specs.Steps.{served, giving, given, joining};
    ghost use Rattle.book_gate.specs.Views.{StartsWith, AreListedWithin, AreCountedWithin};
    ghost use Rattle.book_gate.specs.Views.{AreNumberedBelow, AreAscending, IsChain, statement_of};
    ghost use Rattle.book_gate.specs.Views.{newcomer, origin, mark_of, own, positions, rises};

    /// A gate that keeps this book for so many turns, and the pass that may take them all.
    pub fn new(alloc: Global, book: S, turns: u64) -> Result<(Gate<S>, Pass<S>), (S, NoMemory)>
        requires some { 1 ≤ turns }
        requires few { turns ≤ 2 ^ 62 }
        ensures book { IfOk result (λ r. opened r.0 ≡ book) }
        ensures turns { IfOk result (λ r. turns_given r.0 ≡ turns) }
        ensures own { IfOk result (λ r. IsOf S.footing r.0 r.1) }
        ensures idle { IfOk result (λ r. IsIdle r.1) }
        ensures fresh { IfOk result (λ r. view r.1 ≡ newcomer (origin (S.footing book) turns)
            (statement_of S.list S.settled S.count book)) }
        ensures refused { IfErr result (λ e. e.0 ≡ book) }
    {
        let opening = Opening {
            turns,
            book: Snapshot::of(&book),
        };
        match slots_of(alloc, book) {
            Ok(slots) => match Table::new(alloc, &[0, 0], slots, &opening) {
                Ok((table, seat)) => Ok((Gate { table }, Pass { seat })),
                Err(refused) => Err((only(refused), NoMemory)),
            },
            Err(refused) => Err(refused),
        }
    }

    /// Waits for its turn, and takes the book out.
    pub fn enter<R: Wait>(&self, rt: &R, pass: &mut Pass<S>) -> Held<S>
        requires own { IsOf S.footing self.now pass.old }
        requires idle { IsIdle pass.old }
        requires budget { 1 ≤ turns_left pass.old }
        ensures own { IsOf S.footing self.now pass.new }
        ensures turn { IsInTurn pass.new }
        ensures opens { OpensTurn pass.old pass.new }
        ensures budget { turns_left pass.new + 1 ≡ turns_left pass.old }

        // The book goes on from all that the pass knew.
        ensures found { (view pass.new).found ≡ statement_of S.list S.settled S.count result }
        ensures footing { S.footing result ≡ S.footing (opened self.now) }
        ensures seen { StartsWith (S.list result) (view pass.old).seen }
        ensures count { (view pass.old).count ≤ S.count result }
        ensures turns { AreCountedWithin (view pass.old).turns (S.count result) }
        ensures lengths { AreListedWithin (view pass.old).turns (length (S.list result)) }

        // Its number is above those of all earlier turns of the pass.
        ensures numbers { AreNumberedBelow (view pass.old).turns (view pass.new).ticket }
    {
        let ticket = self.take_ticket(pass);
        self.wait(rt, pass, ticket);
        self.take_out(pass)
    }

    // Returns once the ticket is served, with the book in the slot that the pass then holds.
    fn wait<R: Wait>(&self, rt: &R, pass: &mut Pass<S>, ticket: u64)
        requires own { IsOf S.footing self.now pass.old }
        requires waits { IsWaiting pass.old × ((view pass.old).ticket ≡ ticket) }
        ensures own { IsOf S.footing self.now pass.new }
        ensures called { IsCalledWith (statement_of S.list S.settled S.count)
            S.footing pass.old pass.new }
    {
        let mut looks = 0;
        for _ in rt.forever() {
            let serving = self.look(pass);
            if serving == ticket {
                return;
            }
            if looks < LOOKS {
                looks += 1;
                thread::yield_now();
            } else {
                // A thread parks on the low half of the word.
                let low = (serving & 0xffff_ffff) as u32;
                self.table.shared.park(rt, SERVING, low);
            }
        }
        unreachable!()
    }

    /// Puts the book back, and ends the turn. Its list is the one that was found, with the
    /// entries of this turn behind it.
    #[tactic(auto, using(crate::proofs::Turns::own_push))]
    pub fn leave(&self, pass: &mut Pass<S>, held: Held<S>)
        requires own { IsOf S.footing self.now pass.old }
        requires turn { IsInTurn pass.old }
        requires footing { S.footing held ≡ S.footing (opened self.now) }
        requires list { StartsWith (S.list held) (view pass.old).found.list }
        requires count { (view pass.old).found.count ≤ S.count held }
        ensures own { IsOf S.footing self.now pass.new }
        ensures idle { IsIdle pass.new }
        ensures served { view pass.new
            ≡ served (view pass.old) (statement_of S.list S.settled S.count held) }
        ensures budget { turns_left pass.new ≡ turns_left pass.old }
        ensures own_entries { own (view pass.new).turns
            ≡ own (view pass.old).turns ++ positions (length (view pass.old).found.list)
            (length (S.list held) - length (view pass.old).found.list) }
    {
        self.put_back(pass, held);
        let number = self.advance(pass);
        self.wake_behind(number);
    }

    /// Gives some of its turns to a new pass, for another thread. That one has seen as
    /// much, and has taken no turns.
    pub fn split(&self, pass: &mut Pass<S>, turns: u64) -> Pass<S>
        requires own { IsOf S.footing self.now pass.old }
        requires idle { IsIdle pass.old }
        requires some { 1 ≤ turns }
        requires budget { turns ≤ turns_left pass.old }
        requires rest { turns < (view pass.old).share }
        ensures own { IsOf S.footing self.now pass.new }
        ensures idle { IsIdle pass.new }
        ensures giving { view pass.new ≡ giving (view pass.old) turns }
        ensures budget { turns_left pass.new + turns ≡ turns_left pass.old }

        // The new pass.
        ensures new_own { IsOf S.footing self.now result }
        ensures new_idle { IsIdle result }
        ensures given { view result ≡ given (view pass.old) turns }
        ensures new_budget { turns_left result ≡ turns }
    {
        self.split_by::<Brand>(pass, turns)
    }

    // A cut of a view has no argument, so it reads from a type, in proofs
    // alone, how many turns go over.
    fn split_by<A: Amount>(&self, pass: &mut Pass<S>, turns: u64) -> Pass<S>
        requires own { IsOf S.footing self.now pass.old }
        requires idle { IsIdle pass.old }
        requires amount { turns ≡ A.amount }
        requires some { 1 ≤ turns }
        requires budget { turns ≤ turns_left pass.old }
        requires rest { turns < (view pass.old).share }
        ensures own { IsOf S.footing self.now pass.new × IsOf S.footing self.now result }
        ensures idle { IsIdle pass.new × IsIdle result }
        ensures giving { view pass.new ≡ giving (view pass.old) turns }
        ensures given { view result ≡ given (view pass.old) turns }
    {
        Pass {
            seat: self.table.shared.split_seat::<Give<A>>(&mut pass.seat),
        }
    }

    /// Takes in all that another pass knows, with its turns and its share.
    #[tactic(auto, using(crate::proofs::Merging::joined))]
    pub fn join(&self, into: &mut Pass<S>, other: Pass<S>)
        requires own { IsOf S.footing self.now into.old }
        requires idle { IsIdle into.old }
        requires other_own { IsOf S.footing self.now other }
        requires other_idle { IsIdle other }
        ensures own { IsOf S.footing self.now into.new }
        ensures idle { IsIdle into.new }
        ensures joined { view into.new ≡ joining (view into.old) (view other) }
        ensures turns { IsPermutation ((view into.old).turns ++ (view other).turns)
            (view into.new).turns }
        ensures own_entries { IsPermutation (own (view into.old).turns ++ own (view other).turns)
            (own (view into.new).turns) }
        ensures rises { rises (view into.new).turns
            ≡ rises (view into.old).turns + rises (view other).turns }
        ensures budget { turns_left into.new ≡ turns_left into.old + turns_left other }
        ensures ascend { AreAscending (view into.new).turns }
    {
        let Pass { seat } = other;
        self.table.shared.join_seat::<TakeIn>(&mut into.seat, seat);
        // The step that joins tells nothing of how the turns of both lie, and a meeting does.
        self.meet(into);
    }

    /// How many turns were served. The lists that were joined into the
    /// pass are beginnings of one list.
    pub fn meet(&self, pass: &mut Pass<S>) -> u64
        requires own { IsOf S.footing self.now pass.old }
        requires idle { IsIdle pass.old }
        ensures own { IsOf S.footing self.now pass.new }
        ensures idle { IsIdle pass.new }
        ensures same { view pass.new ≡ view pass.old }
        ensures one_list { All (λ list. StartsWith (view pass.old).seen list)
            (view pass.old).joined }
        ensures at_least { length (view pass.old).turns ≤ result }
        ensures at_most { result + turns_left pass.old ≤ turns_given self.now }
        ensures within { length (view pass.old).turns ≤ (view pass.old).share }
        ensures numbers { AreNumberedBelow (view pass.old).turns result }
        ensures ascend { AreAscending (view pass.old).turns }
        ensures all { (view pass.old).share ≡ turns_given self.now
            → result ≡ length (view pass.old).turns }
    {
        self.table.shared.load::<Meet>(&mut pass.seat, SERVING)
    }

    /// Hands the book back, to the pass that all others were joined into.
    pub fn close(self, pass: Pass<S>) -> S
        requires own { IsOf S.footing self pass }
        requires idle { IsIdle pass }
        requires whole { (view pass).share ≡ turns_given self }
        ensures footing { S.footing result ≡ S.footing (opened self) }
        ensures untouched { (view pass).turns ≡ [] → result ≡ opened self }
        ensures chain { IsChain 0 (mark_of (statement_of S.list S.settled S.count (opened self)))
            (view pass).turns (mark_of (statement_of S.list S.settled S.count result)) }
        ensures list { StartsWith (S.list result) (S.list (opened self)) }
        ensures seen { StartsWith (S.list result) (view pass).seen }
        ensures joined { All (λ list. StartsWith (S.list result) list) (view pass).joined }
        ensures own_entries { own (view pass).turns ≡ positions (length (S.list (opened self)))
            (length (S.list result) - length (S.list (opened self))) }
        ensures rises { rises (view pass).turns + S.count (opened self) ≡ S.count result }
    {
        let Gate { table } = self;
        let Pass { seat } = pass;
        let mut closed = table.close_with(seat);
        let home = closed.take(0);
        closed.free();
        let Some(kept) = home else { unreachable!() };
        kept.into_book()
    }
}

// The one slot of a table, with the book at home there.
fn slots_of<S>(alloc: Global, book: S) -> Result<Vec<Option<Home<S>>>, (S, NoMemory)>
    ensures slots { IfOk result (λ slots. slots.items ≡ Some book ∷ []) }
    ensures refused { IfErr result (λ e. e.0 ≡ book) }
{
    let home = match Home::take_in(alloc, book) {
        Ok(home) => home,
        Err(refused) => return Err(refused),
    };
    let mut slots = Vec::new(alloc);
    if let Err(refused) = slots.push(Some(home)) {
        slots.destroy_empty();
        let Some(kept) = refused.value else {
            unreachable!()
        };
        return Err((kept.into_book(), NoMemory));
    }
    Ok(slots)
}

// The book that a table was refused with.
fn only<S>(refused: Refused<Option<Home<S>>, Global>) -> S
    requires { (b : S) × (refused.slots.items ≡ Some b ∷ []) }
    ensures { refused.slots.items ≡ Some result ∷ [] }
{
    let Refused { mut slots } = refused;
    let last = slots.pop();
    slots.destroy_empty();
    let Some(Some(kept)) = last else {
        unreachable!()
    };
    kept.into_book()
}
