//! The entries of the history, who owns them, and the settings of a timetable.

ghost use Rattle.std.specs.Prelude.{◌≡◌, ◌↔◌, IfOk, IsTrue};

use crate::{Claim, Claims, KeptRequest, Name, Path};
use no_memory::NoMemory;
use std::alloc::Global;

/// Who holds a claim: a train of the base timetable by its number, or an entry by
/// its position in the history.
#[derive(Clone, Copy, Debug, PartialEq, Eq)]
pub enum Owner {
    Base(u32),
    Entry(u64),
}

/// What a granted path answers: a request, or a path that the client gave itself.
#[derive(Debug, Drop)]
pub enum Wanted {
    Asked(KeptRequest),
    Pinned,
}

/// What an entry does: holds claims for a reason, grants a path, or frees the entry at a position.
/// The claims of a hold stand by zone, then by begin; one without a reason has one claim.
#[derive(Debug, Drop)]
pub enum Deed {
    Hold(Claims, Name),
    Grant(Wanted, Path),
    Free(u64),
}

/// One entry of the history: the client that owns it, the client's own number for it, the client's
/// line in its run, and what it does.
#[derive(Debug, Drop)]
pub struct Entry {
    pub owner: Name,
    pub number: u64,
    pub line: u32,
    pub deed: Deed,
}

/// The settings of a timetable: seconds a tick, ticks for setting a route and for releasing a zone,
/// the last tick, the bytes that its journal may take, and whether a train loses time where the
/// next block has another speed.
#[derive(Clone, Copy, Debug, PartialEq, Eq)]
pub struct Settings {
    pub tick_s: u32,
    pub setting: u32,
    pub release: u32,
    pub horizon: u32,
    pub journal_bytes: u64,
    pub speed_loss: bool,
}

impl Wanted {
    /// An equal one of its own.
    pub fn copy(&self, alloc: Global) -> Result<Wanted, NoMemory>
        ensures { IfOk result (λ wanted. wanted ≡ self.now) }
    {
        match self {
            Wanted::Asked(request) => Ok(Wanted::Asked(request.copy(alloc)?)),
            Wanted::Pinned => Ok(Wanted::Pinned),
        }
    }

    /// Whether both are the same request, or both none.
    pub fn is_same(&self, other: &Wanted) -> bool
        ensures { IsTrue result ↔ (self.now ≡ other.now) }
    {
        match (self, other) {
            (Wanted::Asked(a), Wanted::Asked(b)) => a.get().is_same(b.get()),
            (Wanted::Pinned, Wanted::Pinned) => true,
            _ => false,
        }
    }
}

impl Deed {
    /// An equal deed of its own.
    pub fn copy(&self, alloc: Global) -> Result<Deed, NoMemory>
        ensures { IfOk result (λ deed. deed ≡ self.now) }
    {
        match self {
            Deed::Hold(claims, reason) => Ok(Deed::Hold(claims.copy(alloc)?, reason.copy(alloc)?)),
            Deed::Grant(wanted, path) => Ok(Deed::Grant(wanted.copy(alloc)?, path.copy(alloc)?)),
            Deed::Free(entry) => Ok(Deed::Free(*entry)),
        }
    }

    /// Whether both do the same.
    pub fn is_same(&self, other: &Deed) -> bool
        ensures { IsTrue result ↔ (self.now ≡ other.now) }
    {
        match (self, other) {
            (Deed::Hold(claims, reason), Deed::Hold(other_claims, other_reason)) => {
                same_claims(claims.as_slice(), other_claims.as_slice())
                    && reason.is_same(other_reason)
            }
            (Deed::Grant(wanted, path), Deed::Grant(other_wanted, other_path)) => {
                wanted.is_same(other_wanted) && path.is_same(other_path)
            }
            (Deed::Free(a), Deed::Free(b)) => a == b,
            _ => false,
        }
    }
}

impl Entry {
    /// An equal entry of its own.
    pub fn copy(&self, alloc: Global) -> Result<Entry, NoMemory>
        ensures { IfOk result (λ entry. entry ≡ self.now) }
    {
        Ok(Entry {
            owner: self.owner.copy(alloc)?,
            number: self.number,
            line: self.line,
            deed: self.deed.copy(alloc)?,
        })
    }
}

fn same_claims(a: &[Claim], b: &[Claim]) -> bool
    ensures { IsTrue result ↔ (a.now ≡ b.now) }
{
    a == b
}
