//! Clients, and the words that name them.

ghost use Rattle.std.specs.Prelude.{◌≡◌, List as list_of, IfOk, IsErrOf, map};
ghost use Rattle.std.specs.List.{All};
ghost use Rattle.command_line.specs.Clients.{AreClients, client_text, IsClientWord};
ghost use Rattle.command_line.specs.declared.client_words.clients.ClientWord.{
  ClientWord as client_type,
};

use crate::client_words::distinct::are_all_apart;
use crate::client_words::parts::{ClientParts, is_client, split_client};
use crate::{Text, WordsFault};
use no_memory::NoMemory;
use rail_types::{List, Name};
use std::alloc::Global;

/// Greatest number of clients that are served together.
pub const MAX_CLIENTS: usize = 16;

/// A client of the words, `NAME=IN:OUT`: its name, where its lines come
/// from and where its replies go.
#[derive(Debug, Drop)]
pub struct ClientWord {
    pub client: Name,
    pub input: Text,
    pub output: Text,
}

/// Reads words as clients, one a word, in the words' order: 1 to `MAX_CLIENTS`, with
/// names and streams of their own.
pub fn read_clients(alloc: Global, words: &[&str]) -> Result<List<ClientWord>, WordsFault>
    ensures understood { IfOk result AreClients }
    ensures spelled { IfOk result
        (λ clients. map client_text clients ≡ map (λ word. word.now) words.now) }
    ensures refused { IsErrOf result WordsFault.NotUnderstood
        → (clients : list_of client_type) → AreClients clients
        → map client_text clients ≡ map (λ word. word.now) words.now → ⊥ }
{
    if words.is_empty() || words.len() > MAX_CLIENTS {
        return Err(WordsFault::NotUnderstood);
    }
    let clients = match clients_of(alloc, words) {
        Ok(clients) => clients,
        Err(fault) => return Err(fault),
    };
    if !are_all_apart(clients.as_slice()) {
        return Err(WordsFault::NotUnderstood);
    }
    Ok(clients)
}

// The clients that words name, however many there are and whatever they share.
fn clients_of(alloc: Global, words: &[&str]) -> Result<List<ClientWord>, WordsFault>
    ensures understood { IfOk result (All IsClientWord) }
    ensures spelled { IfOk result
        (λ clients. map client_text clients ≡ map (λ word. word.now) words.now) }
    ensures refused { IsErrOf result WordsFault.NotUnderstood
        → (clients : list_of client_type) → All IsClientWord clients
        → map client_text clients ≡ map (λ word. word.now) words.now → ⊥ }
{
    let mut clients = List::new(alloc);
    for word in words {
        let client = match read_client(alloc, word) {
            Ok(client) => client,
            Err(fault) => return Err(fault),
        };
        let Ok(()) = clients.push(client) else {
            return Err(WordsFault::Memory);
        };
    }
    Ok(clients)
}

/// Reads a word as a client.
pub fn read_client(alloc: Global, word: &str) -> Result<ClientWord, WordsFault>
    ensures understood { IfOk result IsClientWord }
    ensures spelled { IfOk result (λ client. client_text client ≡ word.now) }
    ensures refused { IsErrOf result WordsFault.NotUnderstood
        → (client : client_type) → IsClientWord client → client_text client ≡ word.now → ⊥ }
{
    let Some(parts) = split_client(word) else {
        return Err(WordsFault::NotUnderstood);
    };
    if !is_client(&parts) {
        return Err(WordsFault::NotUnderstood);
    }
    match client_of(alloc, &parts) {
        Ok(client) => Ok(client),
        Err(NoMemory) => Err(WordsFault::Memory),
    }
}

// The client of these parts.
fn client_of(alloc: Global, parts: &ClientParts<'_>) -> Result<ClientWord, NoMemory>
    ensures name { IfOk result (λ word. word.client ≡ parts.now.name.now) }
    ensures input { IfOk result (λ word. word.input ≡ parts.now.input.now) }
    ensures output { IfOk result (λ word. word.output ≡ parts.now.output.now) }
{
    Ok(ClientWord {
        client: Name::from_bytes(alloc, parts.name.as_bytes())?,
        input: Text::from_str(alloc, parts.input)?,
        output: Text::from_str(alloc, parts.output)?,
    })
}
