//! The base timetable: what stands before any entry.

ghost use Rattle.std.specs.Prelude.{◌≡◌, IfOk};

use crate::{Claim, List, Settings};
use no_memory::NoMemory;
use std::alloc::Global;

/// A claim of a train of the base timetable, and that train's number.
#[derive(Clone, Copy, Debug, PartialEq, Eq)]
pub struct BaseClaim {
    pub claim: Claim,
    pub train: u32,
}

/// The base timetable: its settings, and the claims of its trains.
#[derive(Debug, Drop)]
pub struct Base {
    pub settings: Settings,
    pub claims: List<BaseClaim>,
}

impl Base {
    /// An equal base timetable of its own.
    pub fn copy(&self, alloc: Global) -> Result<Base, NoMemory>
        ensures { IfOk result (λ base. base ≡ self.now) }
    {
        Ok(Base {
            settings: self.settings,
            claims: self.claims.copy(alloc)?,
        })
    }
}
