//! Laws of the definitions, each on a function that does nothing.

ghost use Rattle.std.specs.Prelude.{◌≡◌, ◌+◌, ℕ, List, length};
ghost use Rattle.rail_types.specs.declared.entries.Entry.{Entry as entry_type};
ghost use Rattle.grant_journal.specs.Headers.{header_of};
ghost use Rattle.grant_journal.specs.Histories.{bodies_of, bytes_of, front_of};

/// A header has 76 bytes, and the bytes of a file that count are those up to its first gate that
/// is not open, with that gate.
pub fn bytes_are_counted()
    ensures header { (network base : List ℕ) → length network ≡ 32 → length base ≡ 32 →
        length (header_of network base) ≡ 76 }
    ensures front { (network base : List ℕ) (entries : List entry_type) →
        length network ≡ 32 → length base ≡ 32 →
        length (front_of (header_of network base) (bodies_of entries)) + 1 ≡ bytes_of entries }
{}
