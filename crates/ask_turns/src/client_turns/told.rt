//! What a turn tells of entries.
ghost use Rattle.std.specs.Prelude.{◌≡◌, ◌≤◌, IfErr, IfOk, length};
ghost use Rattle.rail_types.specs.declared.limits.TheConstants.{MAX_OWNER_BYTES};
ghost use Rattle.book_gate.specs.Views.{StartsWith};
ghost use Rattle.path_commit.specs.history.Legal.{IsInRange};
ghost use Rattle.path_commit.specs.Footings.{footing_of};
ghost use Rattle.path_commit.specs.Ledgers.{settled_of};
ghost use Rattle.ask_turns.specs.Told.{EntersIn, IsFoundAgain, IsRefusal, IsStanding, Stands};
ghost use Rattle.ask_turns.specs.Told.{StopsIn, TriesIn};

use crate::client_turns::halts::Halt;
use crate::client_turns::laws::{kept_entries_stand, none_clashes_behind};
use no_memory::NoMemory;
use outside_io::Disk;
use path_commit::history::{History, Verdict};
use path_commit::{Book, Committed};
use rail_types::{Deed, Entry, Name};
use std::alloc::Global;

/// What is told of an entry that the history does not take.
#[derive(Debug, Drop)]
pub enum Refusal {
    /// The owner's number stands with the same content at this position, with
    /// this deed, and is not freed.
    Kept(u64, Deed),
    /// Another verdict.
    Other(Verdict),
}

/// What became of an entry.
#[derive(Debug, Drop)]
pub enum Entered {
    /// It is settled at this position; the front is behind it.
    Settled { at: u64, front: u64 },
    /// The disk failed after it was begun: it stands at this position, before
    /// the front, and is not settled.
    Unsettled { at: u64, front: u64 },
    /// The history does not take it.
    Refused(Refusal),
    /// Its record would not have room within the journal's limit.
    Full,
}

/// What became of an entry, and the front that its turn found.
#[derive(Debug, Drop)]
pub struct Judged {
    /// What became of the entry.
    pub entered: Entered,
    /// The front that the turn found: how many entries stood when it began.
    pub found: u64,
}

/// What became of an entry whose path was searched for.
#[derive(Debug, Drop)]
pub enum Tried {
    /// It was judged by all that stands.
    Entered(Entered),
    /// Entries from the searched front on have live claims that clash with it; the last of
    /// them stands at this position.
    Missed(u64),
}

/// An entry, and the position of the one that frees it, if any does.
#[derive(Debug, Drop)]
pub struct Standing {
    pub entry: Entry,
    pub freed_by: Option<u64>,
}

// The entry at a position with the one that frees it, copied.
pub(crate) fn standing_at(
    alloc: Global,
    history: &History,
    at: u64,
) -> Result<Option<Standing>, NoMemory>
    ensures { IfOk result (IsStanding history.now.entries at) }
{
    let Some(entry) = history.entry(at) else {
        return Ok(None);
    };
    let entry = entry.copy(alloc)?;
    let freed_by = history.freed_by(at);
    Ok(Some(Standing { entry, freed_by }))
}

// What is told of an entry by a verdict; a deed that stands already is copied.
pub(crate) fn told_by(
    alloc: Global,
    history: &History,
    verdict: Verdict,
) -> Result<Refusal, NoMemory>
    requires { Stands history.now.entries verdict }
    ensures { IfOk result (IsRefusal history.now.entries verdict) }
{
    match verdict {
        Verdict::Kept(at) => {
            let Some(entry) = history.entry(at) else {
                unreachable!()
            };
            let deed = entry.deed.copy(alloc)?;
            Ok(Refusal::Kept(at, deed))
        }
        other => Ok(Refusal::Other(other)),
    }
}

// What is told of an owner's number that stands already, by the deed that is sent
// with it; None where it is new.
pub(crate) fn told_again(
    alloc: Global,
    history: &History,
    owner: &Name,
    number: u64,
    deed: &Deed,
) -> Result<Option<Refusal>, NoMemory>
    requires owner { length owner.now ≤ MAX_OWNER_BYTES }
    ensures { IfOk result (IsFoundAgain history.now.entries owner.now number deed.now) }
{
    let Some(verdict) = history.told_again(owner, number, deed) else {
        return Ok(None);
    };
    let told = told_by(alloc, history, verdict)?;
    Ok(Some(told))
}

// Judges an entry, and takes it into a book with nothing pending.
#[inline(always)]
pub(crate) fn enter_in<D: Disk>(
    alloc: Global,
    book: &mut Book<D>,
    entry: Entry,
) -> Result<Entered, Halt>
    requires idle { settled_of book.old ≡ length book.old.entries }
    requires range { IsInRange book.old.timetable entry }
    ensures entered { IfOk result (EntersIn D.faults entry book.old book.new) }
    ensures stopped { IfErr result (StopsIn D.faults entry book.old book.new) }
    ensures grows { StartsWith book.new.entries book.old.entries }
    ensures footing { footing_of book.new ≡ footing_of book.old }
    ensures later { D.faults book.old.disk ≤ D.faults book.new.disk }
{
    none_clashes_behind();
    let front = book.front();
    let tried = try_in(alloc, book, entry, front)?;
    match tried {
        Tried::Entered(entered) => Ok(entered),
        // No entry stands from the front on, so none clashes.
        Tried::Missed(_at) => unreachable!(),
    }
}

// Judges an entry whose path was searched for where the book had so many entries, and takes it into
// a book with nothing pending.
#[inline(always)]
pub(crate) fn try_in<D: Disk>(
    alloc: Global,
    book: &mut Book<D>,
    entry: Entry,
    searched: u64,
) -> Result<Tried, Halt>
    requires idle { settled_of book.old ≡ length book.old.entries }
    requires range { IsInRange book.old.timetable entry }
    requires searched { searched ≤ length book.old.entries }
    ensures tried { IfOk result (TriesIn D.faults entry searched book.old book.new) }
    ensures stopped { IfErr result (StopsIn D.faults entry book.old book.new) }
    ensures grows { StartsWith book.new.entries book.old.entries }
    ensures footing { footing_of book.new ≡ footing_of book.old }
    ensures later { D.faults book.old.disk ≤ D.faults book.new.disk }
{
    kept_entries_stand();
    match book.commit(entry, searched) {
        Committed::Done(at) => Ok(Tried::Entered(Entered::Settled {
            at,
            front: book.front(),
        })),
        Committed::Unsettled(at) => Ok(Tried::Entered(Entered::Unsettled {
            at,
            front: book.front(),
        })),
        Committed::Refused(verdict) => {
            let told = told_by(alloc, book.history(), verdict)?;
            Ok(Tried::Entered(Entered::Refused(told)))
        }
        Committed::Clash { entry } => Ok(Tried::Missed(entry)),
        Committed::Full => Ok(Tried::Entered(Entered::Full)),
        Committed::DiskFault => Err(Halt::DiskFault),
        Committed::Memory => Err(Halt::NoMemory),
    }
}
