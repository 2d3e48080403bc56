//! The file for a client's proofs.

ghost use Rattle.std.specs.Prelude.{◌≡◌, option_map};
ghost use Rattle.command_line.specs.Proofs.{proof_of as file_of};

use crate::Text;
use crate::proof_words::proofs::ProofWord;
use rail_types::Name;

/// The file for the proofs of a client: that of the first of these proofs that
/// names it, None where none does.
pub fn proof_of<'a>(proofs: &'a [ProofWord], name: &Name) -> Option<&'a Text>
    ensures { option_map (λ file. file.now) result ≡ file_of proofs.now name.now }
{
    let mut rest = proofs;
    while let Some((first, others)) = rest.split_first() {
        if first.client.is_same(name) {
            return Some(&first.file);
        }
        rest = others;
    }
    None
}
