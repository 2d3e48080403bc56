//! What stands in a list of entries, found by looking through all of them.

ghost use Rattle.std.specs.Prelude.{◌≡◌, position};
ghost use Rattle.grant_log.specs.Live.{frees as deed_frees, freed_by as freed_at};
ghost use Rattle.grant_log.specs.Verdict.{bears as entry_bears, place_of as place_at};

use rail_types::{Deed, Entry, Name};

// The position at which an owner's number stands.
pub(crate) fn place_of(entries: &[Entry], owner: &Name, number: u64) -> Option<u64>
    ensures { result ≡ place_at entries.now owner.now number }
{
    for (at, entry) in entries.iter().enumerate() {
        if bears(entry, owner, number) {
            return Some(at as u64);
        }
    }
    None
}

// The position of the first later entry that frees the one at this position.
pub(crate) fn freed_by(entries: &[Entry], at: u64) -> Option<u64>
    ensures { result ≡ freed_at entries.now at }
{
    if at >= entries.len() as u64 {
        return None;
    }
    let (_, later) = entries.split_at(at as usize + 1);
    let behind = first_freeing(later, at)?;
    Some(at + 1 + behind)
}

// How many entries stand before the first that frees the one at this position.
fn first_freeing(entries: &[Entry], at: u64) -> Option<u64>
    ensures { result ≡ position (λ entry. deed_frees at entry.deed) entries.now }
{
    for (behind, entry) in entries.iter().enumerate() {
        if frees(&entry.deed, at) {
            return Some(behind as u64);
        }
    }
    None
}

fn bears(entry: &Entry, owner: &Name, number: u64) -> bool
    ensures { result ≡ entry_bears owner.now number entry.now }
{
    entry.owner.is_same(owner) && entry.number == number
}

fn frees(deed: &Deed, at: u64) -> bool
    ensures { result ≡ deed_frees at deed.now }
{
    match deed {
        Deed::Free(freed) => *freed == at,
        _ => false,
    }
}
