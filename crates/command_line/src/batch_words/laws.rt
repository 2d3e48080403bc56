//! Laws of the workers' names and of the limits, each on a function that does nothing.

ghost use Rattle.std.specs.Prelude.{◌≡◌, ◌≤◌, ℕ, List, length};
ghost use Rattle.rail_types.specs.Limits.{IsClientName};
ghost use Rattle.command_line.specs.Workers.{worker_name};

use crate::batch_words::clients::{MAX_BATCH_NAME_BYTES, MAX_WORKERS};

/// The workers of a batch have names of clients.
pub fn worker_names_are_names()
    ensures { (name : List ℕ) (worker : ℕ) → IsClientName name
        → length name ≤ MAX_BATCH_NAME_BYTES → worker ≤ MAX_WORKERS
        → IsClientName (worker_name name worker) }
{}

/// No two workers of a batch have one name.
pub fn worker_names_differ()
    ensures { (name : List ℕ) (one other : ℕ) → one ≤ MAX_WORKERS → other ≤ MAX_WORKERS
        → worker_name name one ≡ worker_name name other → one ≡ other }
{}

/// The limits of a batch.
pub fn limits_are_these()
    ensures workers { MAX_WORKERS ≡ 16 }
    ensures name_bytes { MAX_BATCH_NAME_BYTES ≡ 29 }
{}
