//! Ticks, claims on zones, and paths.

ghost use Rattle.std.specs.Prelude.{◌≡◌, ◌↔◌, ◌⊎◌, ◌<◌, ◌<ℤ◌, IfOk, IsTrue};
ghost use Rattle.rail_types.specs.FirstClash.{IsBefore};
ghost use Rattle.rail_types.specs.Occupation.{Clash};

use crate::{List, Train};
use no_memory::NoMemory;
use std::alloc::Global;

/// A moment, counted in ticks.
pub type Tick = i64;

/// The ticks from `from` on and before `to`; `from` is less than `to` in every claim that is held.
#[derive(Clone, Copy, Debug, PartialEq, Eq)]
pub struct Span {
    pub from: Tick,
    pub to: Tick,
}

/// The ticks from `from` to `to`, both among them; none where `from` is greater.
#[derive(Clone, Copy, Debug, PartialEq, Eq, PartialOrd, Ord)]
pub struct Window {
    pub from: Tick,
    pub to: Tick,
}

/// A zone that is taken for a span of ticks.
#[derive(Clone, Copy, Debug, PartialEq, Eq)]
pub struct Claim {
    pub zone: u32,
    pub span: Span,
}

impl Claim {
    /// Whether two claims are on one zone and each begins before the other ends.
    pub fn clashes(&self, other: &Claim) -> bool
        ensures { IsTrue result ↔ Clash self.now other.now }
    {
        self.zone == other.zone && self.span.from < other.span.to && other.span.from < self.span.to
    }

    /// Whether this claim is on a lower zone than the other, or on the
    /// same one and begins before it.
    pub fn comes_before(&self, other: &Claim) -> bool
        ensures { IsTrue result ↔ IsBefore self.now other.now }
    {
        self.zone < other.zone || (self.zone == other.zone && self.span.from < other.span.from)
    }
}

/// One block of a path: its number, the ticks at which the head enters it and reaches its end, and
/// whether the train stops there.
#[derive(Clone, Copy, Debug, PartialEq, Eq)]
pub struct Run {
    pub block: u32,
    pub enter: Tick,
    pub leave: Tick,
    pub stops: bool,
}

/// A train and the blocks that it runs through, in order.
#[derive(Debug, Drop)]
pub struct Path {
    pub train: Train,
    pub runs: List<Run>,
}

impl Path {
    /// An equal path of its own.
    pub fn copy(&self, alloc: Global) -> Result<Path, NoMemory>
        ensures { IfOk result (λ path. path ≡ self.now) }
    {
        Ok(Path {
            train: self.train.copy(alloc)?,
            runs: self.runs.copy(alloc)?,
        })
    }

    /// Whether two paths have the same train and the same runs.
    pub fn is_same(&self, other: &Path) -> bool
        ensures { IsTrue result ↔ (self.now ≡ other.now) }
    {
        self.train.is_same(&other.train) && same_runs(self.runs.as_slice(), other.runs.as_slice())
    }
}

fn same_runs(a: &[Run], b: &[Run]) -> bool
    ensures { IsTrue result ↔ (a.now ≡ b.now) }
{
    a == b
}
