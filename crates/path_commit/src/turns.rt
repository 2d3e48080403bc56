//! Many turns on a book.

ghost use Rattle.std.specs.Prelude.{◌≡◌, ◌+◌, ◌≤◌, ℕ, List, IfOk, OnErr, Some, length};
ghost use Rattle.grant_log.specs.Legal.{IsInRange};
ghost use Rattle.path_commit.specs.Ledgers.{IsPrefixOf, moment_of};
ghost use Rattle.path_commit.specs.Runs.{AreAnswered, AreInRange, AreTurns, Grows, IsAnswered};
ghost use Rattle.path_commit.specs.Runs.{IsTurn};

use crate::{Book, Committed};
use grant_journal::Settled;
use no_memory::NoMemory;
use outside_io::Disk;
use rail_types::Entry;
use std::alloc::Global;

/// An entry that a client sends, and the front up to which it knew the live claims.
#[derive(Debug, Drop)]
pub struct Sent {
    pub entry: Entry,
    pub searched: u64,
}

/// One turn: settles what is pending, and commits an entry, whatever it does.
pub fn turn<D: Disk>(alloc: Global, book: &mut Book<D>, sent: &Sent) -> Committed
    requires range { IsInRange book.old.timetable sent.now.entry }
    ensures turn { IsTurn D.Disk book.old book.new sent.now result }
    ensures grows { Grows book.old book.new }
    ensures answered { IsAnswered book.new sent.now.entry result }
    ensures later { D.faults book.old.disk ≤ D.faults book.new.disk }
{
    let Ok(entry) = sent.entry.copy(alloc) else {
        return Committed::Memory;
    };
    if let Settled::Fault = book.settle() {
        return Committed::DiskFault;
    }
    let searched = sent.searched.min(book.front());
    book.commit(entry, searched)
}

/// Many turns, with as many answers, each of which is what its turn tells. Whatever the disk does
/// in them, a crash at any moment since the book was made leaves a prefix of the history, and since
/// the moment of an entry it has that entry; an entry that was told done is settled, and so has its
/// moment. Room for the answers is made first: where there is none, the book stays.
pub fn run_all<D: Disk>(
    alloc: Global,
    book: &mut Book<D>,
    sent: &[Sent],
) -> Result<Vec<Committed>, NoMemory>
    requires range { AreInRange book.old.timetable sent.now }
    ensures turns { IfOk result (λ answers.
        AreTurns D.Disk book.old sent.now answers.items book.new) }
    ensures count { IfOk result (λ answers. length answers.items ≡ length sent.now) }
    ensures err { OnErr result (book.new ≡ book.old) }
    ensures grows { Grows book.old book.new }
    ensures answered { IfOk result (λ answers. AreAnswered book.new sent.now answers.items) }
    ensures later { D.faults book.old.disk ≤ D.faults book.new.disk }
    ensures any_moment { (image : List ℕ) → D.since book.new.disk book.new.made image →
        IsPrefixOf book.new book.new.found image }
    ensures settled { (at moment : ℕ) (image : List ℕ) → moment_of book.new at ≡ Some moment →
        D.since book.new.disk moment image → IsPrefixOf book.new (at + 1) image }
{
    book.keeps();
    let mut answers = Vec::with_capacity(alloc, sent.len())?;
    for one in sent {
        let answer = turn(alloc, book, one);
        answers.push_reserved(answer);
    }
    book.keeps();
    Ok(answers)
}
