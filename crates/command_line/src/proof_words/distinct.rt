//! Proofs that share neither a client nor a file.

ghost use Rattle.std.specs.Prelude.{◌≢◌, ◌↔◌, IsTrue};
ghost use Rattle.std.specs.List.{All, AllPairs};
ghost use Rattle.command_line.specs.Proofs.{AreApart};

use crate::proof_words::proofs::ProofWord;

/// Whether no two of these proofs share a client or a file.
pub(crate) fn are_all_apart(proofs: &[ProofWord]) -> bool
    ensures { IsTrue result ↔ AllPairs AreApart proofs.now }
{
    let mut rest = proofs;
    while let Some((first, others)) = rest.split_first() {
        if !is_apart_from(first, others) {
            return false;
        }
        rest = others;
    }
    true
}

// Whether a proof shares neither its client nor its file with any of these.
fn is_apart_from(one: &ProofWord, others: &[ProofWord]) -> bool
    ensures { IsTrue result ↔ All (AreApart one.now) others.now }
{
    for other in others {
        if !are_apart(one, other) {
            return false;
        }
    }
    true
}

fn are_apart(one: &ProofWord, other: &ProofWord) -> bool
    ensures { IsTrue result ↔ AreApart one.now other.now }
{
    !one.client.is_same(&other.client) && one.file.as_str() != other.file.as_str()
}
