//! Whose a proof is, and whether its file is its own.

ghost use Rattle.std.specs.Prelude.{◌≢◌, ◌↔◌, IsTrue};
ghost use Rattle.command_line.specs.Clients.{IsStreamName};
ghost use Rattle.command_line.specs.Proofs.{IsNoStreamOf, NamesOneOf};

use crate::Text;
use crate::client_words::{ClientWord, cut_at_colon};
use crate::proof_words::proofs::ProofWord;

/// Whether a proof names one of these clients, and its file is a stream of none of them.
pub(crate) fn belongs_to(proof: &ProofWord, clients: &[ClientWord]) -> bool
    ensures { IsTrue result
        ↔ (NamesOneOf clients.now proof.now × IsNoStreamOf clients.now proof.now.file) }
{
    names_one(proof, clients) && is_no_stream(&proof.file, clients)
}

// Whether a proof names one of these clients.
fn names_one(proof: &ProofWord, clients: &[ClientWord]) -> bool
    ensures { IsTrue result ↔ NamesOneOf clients.now proof.now }
{
    clients
        .iter()
        .any(|client| client.client.is_same(&proof.client))
}

// Whether none of these clients has a stream of this name.
fn is_no_stream(file: &Text, clients: &[ClientWord]) -> bool
    ensures { IsTrue result ↔ IsNoStreamOf clients.now file.now }
{
    clients.iter().all(|client| differ(file, &client.input) && differ(file, &client.output))
}

fn differ(one: &Text, other: &Text) -> bool
    ensures { IsTrue result ↔ (one.now ≢ other.now) }
{
    one.as_str() != other.as_str()
}

/// Whether a text is the name of a file, a pipe or a standard stream.
pub(crate) fn is_file_name(name: &str) -> bool
    ensures { IsTrue result ↔ IsStreamName name.now }
{
    if name.is_empty() {
        return false;
    }
    match cut_at_colon(name) {
        None => true,
        Some(_) => false,
    }
}
