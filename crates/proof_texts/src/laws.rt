//! Laws of the texts of proofs, each on a function that calls other laws at most.

ghost use Rattle.std.specs.Prelude.{◌≡◌};
ghost use Rattle.proof_texts.specs.Read.{AsksCanBeTold, ProofsAreReadOnce};

use crate::reading::MAX_PROOF_FILE_BYTES;
use client_lines::asks_spell_requests;
use json_fields::name_text::names_are_spelled_once;

/// No text begins with the texts of two proofs.
pub fn proofs_are_read_once()
    ensures { ProofsAreReadOnce }
{
    names_are_spelled_once();
}

/// What the line of a client asks for can be told in a proof.
pub fn asks_can_be_told()
    ensures { AsksCanBeTold }
{
    asks_spell_requests();
}

/// The limit of the file of a client's proofs.
pub fn limits_are_these()
    ensures { MAX_PROOF_FILE_BYTES ≡ 67108864 }
{}
