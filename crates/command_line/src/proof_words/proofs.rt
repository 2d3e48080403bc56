//! Proofs, and the words that name them.

ghost use Rattle.std.specs.Prelude.{◌≡◌, List as list_of, IfOk, IsErrOf, map};
ghost use Rattle.std.specs.List.{All};
ghost use Rattle.command_line.specs.Proofs.{AreProofs, IsProofOf, IsProofWord, proof_text};
ghost use Rattle.command_line.specs.declared.proof_words.proofs.ProofWord.{ProofWord as proof_type};

use crate::client_words::ClientWord;
use crate::proof_words::belonging::{belongs_to, is_file_name};
use crate::proof_words::distinct::are_all_apart;
use crate::{Text, WordsFault, cut_at_equals};
use no_memory::NoMemory;
use rail_types::{List, Name, is_client_name};
use std::alloc::Global;

/// A proof of the words, `NAME=F`: the client whose paths and refusals are proved,
/// and the file for the proofs.
#[derive(Debug, Drop)]
pub struct ProofWord {
    pub client: Name,
    pub file: Text,
}

/// Reads words as proofs of these clients, one a word, in the words' order: at most one of each
/// client, each with a file of its own.
pub fn read_proofs(
    alloc: Global,
    clients: &[ClientWord],
    words: &[&str],
) -> Result<List<ProofWord>, WordsFault>
    ensures understood { IfOk result (AreProofs clients.now) }
    ensures spelled { IfOk result
        (λ proofs. map proof_text proofs ≡ map (λ word. word.now) words.now) }
    ensures refused { IsErrOf result WordsFault.NotUnderstood
        → (proofs : list_of proof_type) → AreProofs clients.now proofs
        → map proof_text proofs ≡ map (λ word. word.now) words.now → ⊥ }
{
    let proofs = match proofs_among(alloc, clients, words) {
        Ok(proofs) => proofs,
        Err(fault) => return Err(fault),
    };
    if !are_all_apart(proofs.as_slice()) {
        return Err(WordsFault::NotUnderstood);
    }
    Ok(proofs)
}

// The proofs that words name, each of one of these clients, whatever they share.
fn proofs_among(
    alloc: Global,
    clients: &[ClientWord],
    words: &[&str],
) -> Result<List<ProofWord>, WordsFault>
    ensures understood { IfOk result (All (IsProofOf clients.now)) }
    ensures spelled { IfOk result
        (λ proofs. map proof_text proofs ≡ map (λ word. word.now) words.now) }
    ensures refused { IsErrOf result WordsFault.NotUnderstood
        → (proofs : list_of proof_type) → All (IsProofOf clients.now) proofs
        → map proof_text proofs ≡ map (λ word. word.now) words.now → ⊥ }
{
    let mut proofs = List::new(alloc);
    for word in words {
        let proof = match read_proof(alloc, word) {
            Ok(proof) => proof,
            Err(fault) => return Err(fault),
        };
        if !belongs_to(&proof, clients) {
            return Err(WordsFault::NotUnderstood);
        }
        let Ok(()) = proofs.push(proof) else {
            return Err(WordsFault::Memory);
        };
    }
    Ok(proofs)
}

/// Reads a word as a proof, whomever it names.
pub fn read_proof(alloc: Global, word: &str) -> Result<ProofWord, WordsFault>
    ensures understood { IfOk result IsProofWord }
    ensures spelled { IfOk result (λ proof. proof_text proof ≡ word.now) }
    ensures refused { IsErrOf result WordsFault.NotUnderstood
        → (proof : proof_type) → IsProofWord proof → proof_text proof ≡ word.now → ⊥ }
{
    let Some((name, file)) = cut_at_equals(word) else {
        return Err(WordsFault::NotUnderstood);
    };
    if !is_client_name(name.as_bytes()) {
        return Err(WordsFault::NotUnderstood);
    }
    if !is_file_name(file) {
        return Err(WordsFault::NotUnderstood);
    }
    match proof_with(alloc, name, file) {
        Ok(proof) => Ok(proof),
        Err(NoMemory) => Err(WordsFault::Memory),
    }
}

// The proof of a client in a file.
fn proof_with(alloc: Global, name: &str, file: &str) -> Result<ProofWord, NoMemory>
    ensures client { IfOk result (λ proof. proof.client ≡ name.now) }
    ensures file { IfOk result (λ proof. proof.file ≡ file.now) }
{
    Ok(ProofWord {
        client: Name::from_bytes(alloc, name.as_bytes())?,
        file: Text::from_str(alloc, file)?,
    })
}
