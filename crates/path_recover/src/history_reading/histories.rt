ghost use Rattle.std.specs.Prelude.{◌≡◌, ◌⊎◌, ◌+◌, ◌<◌, ◌^◌, [], IfErr, IfOk, MatchOption, OnOk};
ghost use Rattle.std.specs.Prelude.{length};
ghost use Rattle.grant_log.specs.Following.{AreLive};
ghost use Rattle.occupation_book.specs.Held.{held};
ghost use Rattle.path_recover.specs.Files.{WalkIsRefused};
ghost use Rattle.path_recover.specs.Walks.{IsReadTo, NextIs};
ghost use Rattle.path_recover.specs.declared.journal_reading.faults.OpenFault.TheVariants.{
  Damaged,
  Memory,
};
ghost use Rattle.path_recover.specs.declared.journal_reading.records.Next.TheVariants.{
  Broken,
  Record,
  Shut,
};

use crate::history_reading::joins::join;
use crate::journal_reading::{Next, OpenFault, next_record};
use byte_fields::Fields;
use grant_log::History;
use grant_log::copy_since::copy_of;
use no_memory::NoMemory;
use occupation_book::Occupations;
use rail_types::Entry;
use std::alloc::Global;

/// The history of a journal, the claims that are live in it, and the offset of the gate behind its
/// last record.
#[derive(Drop)]
pub struct Found {
    pub history: History,
    pub claims: Occupations,
    pub gate: u64,
}

// The history that stands in these bytes behind a header.
pub(crate) fn read_history(
    alloc: Global,
    empty: History,
    left: &[u8],
    version: u32,
) -> Result<Found, OpenFault>
    requires empty { empty.entries ≡ [] }
    requires size { 76 + length left.now < 2 ^ 64 }
    ensures timetable { IfOk result (λ found. found.history.timetable ≡ empty.timetable) }
    ensures found { IfOk result (λ found.
        IsReadTo empty.timetable version left.now 76 found.history.entries found.gate) }
    ensures live { IfOk result (λ found. AreLive
        found.history.timetable (held found.claims) found.history.entries) }
    ensures zones { IfOk result (λ found.
        length found.claims ≡ found.history.timetable.net.zones) }
    ensures refused { IfErr result (WalkIsRefused empty.timetable version left.now) }
{
    match copy_of(alloc, &empty) {
        Ok(claims) => found_with(alloc, empty, claims, left, version),
        Err(NoMemory) => Err(OpenFault::Memory),
    }
}

// The same, where these claims are live in the empty history.
fn found_with(
    alloc: Global,
    empty: History,
    claims: Occupations,
    left: &[u8],
    version: u32,
) -> Result<Found, OpenFault>
    requires empty { empty.entries ≡ [] }
    requires size { 76 + length left.now < 2 ^ 64 }
    requires live { AreLive empty.timetable (held claims) empty.entries }
    requires zones { length claims ≡ empty.timetable.net.zones }
    ensures timetable { IfOk result (λ found. found.history.timetable ≡ empty.timetable) }
    ensures found { IfOk result (λ found.
        IsReadTo empty.timetable version left.now 76 found.history.entries found.gate) }
    ensures live { IfOk result (λ found. AreLive
        found.history.timetable (held found.claims) found.history.entries) }
    ensures zones { IfOk result (λ found.
        length found.claims ≡ found.history.timetable.net.zones) }
    ensures refused { IfErr result (WalkIsRefused empty.timetable version left.now) }
{
    let mut history = empty;
    let mut claims = claims;
    let gate = read_entries(alloc, &mut history, &mut claims, left, version)?;
    Ok(Found {
        history,
        claims,
        gate,
    })
}

// Reads the entries in these bytes into an empty history. Answers the offset of the gate
// behind them.
fn read_entries(
    alloc: Global,
    history: &mut History,
    book: &mut Occupations,
    left: &[u8],
    version: u32,
) -> Result<u64, OpenFault>
    requires empty { history.old.entries ≡ [] }
    requires size { 76 + length left.now < 2 ^ 64 }
    requires live { AreLive history.old.timetable (held book.old) history.old.entries }
    requires zones { length book.old ≡ history.old.timetable.net.zones }
    ensures timetable { OnOk result (history.new.timetable ≡ history.old.timetable) }
    ensures found { IfOk result
        (IsReadTo history.old.timetable version left.now 76 history.new.entries) }
    ensures live { OnOk result
        (AreLive history.new.timetable (held book.new) history.new.entries) }
    ensures zones { OnOk result (length book.new ≡ history.old.timetable.net.zones) }
    ensures refused { IfErr result (WalkIsRefused history.old.timetable version left.now) }
{
    let mut fields = Fields::new(left);
    'entries: loop {
        let gate = 76 + fields.at() as u64;
        let front = history.front();
        match next_entry(alloc, &mut fields, version, gate)? {
            Some(entry) => join(alloc, history, book, entry, front)?,
            None => return Ok(gate),
        }
    }
}

// The entry that stands next, at this offset, None where the history ends there.
fn next_entry(
    alloc: Global,
    fields: &mut Fields,
    version: u32,
    gate: u64,
) -> Result<Option<Entry>, OpenFault>
    ensures found { IfOk result (λ found. MatchOption found
        (NextIs version fields.old fields.new Shut)
        (λ entry. NextIs version fields.old fields.new (Record entry))) }
    ensures refused { IfErr result (λ fault. (fault ≡ Memory) ⊎ ((fault ≡ Damaged gate)
        × NextIs version fields.old fields.new Broken)) }
{
    match next_record(alloc, fields, version) {
        Ok(Next::Shut) => Ok(None),
        Ok(Next::Record(entry)) => Ok(Some(entry)),
        Ok(Next::Broken) => Err(OpenFault::Damaged { at: gate }),
        Err(NoMemory) => Err(OpenFault::Memory),
    }
}
