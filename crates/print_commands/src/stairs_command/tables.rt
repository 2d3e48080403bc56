//! The stairway of an entry.

ghost use Rattle.std.specs.Prelude.{◌≡◌, ◌++◌, ◌⊎◌, codes, decimal, option_map, IfErr, IfOk};
ghost use Rattle.command_reports.specs.declared.exit_status.Status.TheVariants.{No};
ghost use Rattle.command_reports.specs.Refusals.{IsTold};
ghost use Rattle.print_commands.specs.Tables.{granted_at, granted_by, IsNoGrant, IsTableOf};
ghost use Rattle.print_commands.specs.Tables.{no_grant_line};

use command_reports::Refusal;
use command_reports::exit_status::Status;
use grant_log::{History, claims_are_on_the_network, grants_keep_their_requests};
use itoa::Buffer;
use no_memory::NoMemory;
use rail_types::{Deed, Path};
use stairway_print::stairs_table;
use std::alloc::Global;

/// The table of the stairway that the entry at a position grants, also where it was freed. A hold,
/// a Free and a position from the front on are no grant, and refuse as `entry I is no grant`.
pub(crate) fn table_of(alloc: Global, history: &History, entry: u64) -> Result<Vec<u8>, Refusal>
    ensures table { IfOk result (λ table. IsTableOf history.now entry table.items) }
    ensures refused { IfErr result (λ refusal.
        IsNoGrant history.now entry refusal ⊎ (refusal ≡ Refusal.Memory)) }
{
    grants_keep_their_requests();
    claims_are_on_the_network();
    // The entries of a history are legal, so its grants keep the rules of runs.
    history.front();
    let Some(path) = granted(history, entry) else {
        return Err(no_grant(alloc, entry));
    };
    match stairs_table(alloc, history.net(), history.settings(), path) {
        Ok(table) => Ok(table),
        Err(NoMemory) => Err(Refusal::Memory),
    }
}

// The path that the entry at a position grants.
fn granted(history: &History, entry: u64) -> Option<&Path>
    ensures path { option_map (λ path. path.now) result ≡ granted_at history.now.entries entry }
{
    let Some(entry) = history.entry(entry) else {
        return None;
    };
    path_of(&entry.deed)
}

// The path that a deed grants.
fn path_of(deed: &Deed) -> Option<&Path>
    ensures path { option_map (λ path. path.now) result ≡ granted_by deed.now }
{
    match deed {
        Deed::Grant(_, path) => Some(path),
        _ => None,
    }
}

// An entry is no grant.
fn no_grant(alloc: Global, entry: u64) -> Refusal
    ensures { IsTold No (no_grant_line entry) result }
{
    match no_grant_text(alloc, entry) {
        Ok(text) => Refusal::with(alloc, Status::No, b"entry ", text.as_slice()),
        Err(NoMemory) => Refusal::Memory,
    }
}

fn no_grant_text(alloc: Global, entry: u64) -> Result<Vec<u8>, NoMemory>
    ensures { IfOk result (λ text. text.items ≡ decimal entry ++ codes " is no grant") }
{
    let mut digits = Buffer::new();
    let mut text = Vec::from_slice(alloc, digits.format(entry).as_bytes())?;
    text.extend_from_slice(b" is no grant")?;
    Ok(text)
}
