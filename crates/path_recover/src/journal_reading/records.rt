ghost use Rattle.std.specs.Prelude.{◌≡◌, ◌≢◌, ℕ, IfOk, IfSome, IsNone, IsTrue};
ghost use Rattle.rail_types.specs.declared.entries.Entry.{Entry as entry_type};
ghost use Rattle.entry_codec.specs.Body.{body_of, kind_byte};
ghost use Rattle.path_recover.specs.Walks.{IsSpelledIn, NextIs};

use crate::journal_reading::bodies::next_body;
use byte_fields::{Fields, one_form};
use entry_codec::{EntryFault, read};
use no_memory::NoMemory;
use rail_types::Entry;
use std::alloc::Global;

/// What stands next behind a header, or behind the records before.
#[derive(Debug, Drop)]
pub enum Next {
    /// A gate that is not open. The history ends here.
    Shut,
    /// A whole record behind an open gate.
    Record(Entry),
    /// Neither.
    Broken,
}

// Whether a body may stand in a journal of this version: version 1 has no holds with a reason.
fn is_in_version(body: &[u8], version: u32) -> bool
    ensures yes { (entry : entry_type) → body.now ≡ body_of entry → IsTrue result →
        version ≡ 1 → kind_byte entry.deed ≢ 5 }
    ensures no { (entry : entry_type) → body.now ≡ body_of entry →
        (version ≡ 1 → kind_byte entry.deed ≢ 5) → IsTrue result }
{
    version != 1 || body.first() != Some(&5)
}

// The entry of a body that is whole, or that no entry has it.
fn entry_of(alloc: Global, body: &[u8], version: u32) -> Result<Option<Entry>, NoMemory>
    ensures some { IfOk result (λ found. IfSome found (λ entry.
        IsSpelledIn version entry × (body.now ≡ body_of entry))) }
    ensures none { IfOk result (λ found. IsNone found → (entry : entry_type) →
        IsSpelledIn version entry → body.now ≢ body_of entry) }
{
    if !is_in_version(body, version) {
        return Ok(None);
    }
    match read(alloc, body) {
        Ok(entry) => Ok(Some(entry)),
        Err(EntryFault::NotEntry { at: _ }) => Ok(None),
        Err(EntryFault::Memory) => Err(NoMemory),
    }
}

/// What stands next, where the reader stands behind a header of this version or behind a record.
pub fn next_record(alloc: Global, fields: &mut Fields, version: u32) -> Result<Next, NoMemory>
    ensures { IfOk result (NextIs version fields.old fields.new) }
{
    one_form();
    let Ok(found) = next_body(fields) else {
        return Ok(Next::Broken);
    };
    let Some(body) = found else {
        return Ok(Next::Shut);
    };
    match entry_of(alloc, body, version)? {
        Some(entry) => Ok(Next::Record(entry)),
        None => Ok(Next::Broken),
    }
}
