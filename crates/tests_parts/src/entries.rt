//! Entries, as a table's lines tell them.

use crate::railway::{asked, path};
use crate::words::{first_word, no_memory, not_understood, number_of, small_of, tick_of};
use no_memory::NoMemory;
use rail_types::{Claim, Claims, Deed, Entry, Name, Span, Wanted};
use std::alloc::Global;
use std::io;

/// An entry: its owner, its number, and `hold ZONE FROM TO`,
/// `ask DEPART`, `pin DEPART` or `free AT`.
pub fn entry_of(alloc: Global, line: &str) -> io::Result<Entry> {
    let (owner, rest) = first_word(line);
    let (number, rest) = first_word(rest);
    let (kind, rest) = first_word(rest);
    let number = number_of(number)?;
    let owner = Name::from_bytes(alloc, owner.as_bytes()).map_err(no_memory)?;
    let deed = deed_of(alloc, kind, rest)?;
    Ok(Entry {
        owner,
        number,
        line: 1,
        deed,
    })
}

fn deed_of(alloc: Global, kind: &str, rest: &str) -> io::Result<Deed> {
    match kind {
        "hold" => hold_of(alloc, rest),
        "ask" => grant(alloc, true, tick_of(rest)?).map_err(no_memory),
        "pin" => grant(alloc, false, tick_of(rest)?).map_err(no_memory),
        "free" => Ok(Deed::Free(number_of(rest)?)),
        _ => Err(not_understood()),
    }
}

fn hold_of(alloc: Global, line: &str) -> io::Result<Deed> {
    let (zone, rest) = first_word(line);
    let (from, to) = first_word(rest);
    let claim = Claim {
        zone: small_of(zone)?,
        span: Span {
            from: tick_of(from)?,
            to: tick_of(to)?,
        },
    };
    hold(alloc, claim).map_err(no_memory)
}

fn hold(alloc: Global, claim: Claim) -> Result<Deed, NoMemory> {
    Ok(Deed::Hold(Claims::one(alloc, claim), Name::empty(alloc)))
}

fn grant(alloc: Global, is_asked: bool, depart: i64) -> Result<Deed, NoMemory> {
    let wanted = if is_asked {
        asked(alloc, depart)?
    } else {
        Wanted::Pinned
    };
    Ok(Deed::Grant(wanted, path(alloc, depart)?))
}
