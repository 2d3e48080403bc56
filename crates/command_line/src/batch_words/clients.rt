//! The client of a batch, and how many workers it has.

ghost use Rattle.std.specs.Prelude.{◌≡◌, ◌≤◌, ℕ, decimal, IfNone, IfOk, IfSome, IsErrOf};
ghost use Rattle.command_line.specs.Clients.{client_text};
ghost use Rattle.command_line.specs.declared.client_words.clients.ClientWord.{
  ClientWord as client_type,
};
ghost use Rattle.command_line.specs.Workers.{AreWorkers, IsBatchClient};

use crate::client_words::{ClientWord, read_client};
use crate::{WordsFault, read_small_number};
use std::alloc::Global;

/// Greatest number of workers of a batch.
pub const MAX_WORKERS: u32 = 16;

/// Greatest length of the name of a batch's client, in bytes.
pub const MAX_BATCH_NAME_BYTES: usize = 29;

/// Reads a word as the client of a batch.
pub fn read_batch_client(alloc: Global, word: &str) -> Result<ClientWord, WordsFault>
    ensures understood { IfOk result IsBatchClient }
    ensures spelled { IfOk result (λ client. client_text client ≡ word.now) }
    ensures refused { IsErrOf result WordsFault.NotUnderstood
        → (client : client_type) → IsBatchClient client → client_text client ≡ word.now → ⊥ }
{
    let client = match read_client(alloc, word) {
        Ok(client) => client,
        Err(fault) => return Err(fault),
    };
    if client.client.as_bytes().len() > MAX_BATCH_NAME_BYTES {
        return Err(WordsFault::NotUnderstood);
    }
    Ok(client)
}

/// Reads a word as a number of workers, 1 to `MAX_WORKERS`.
pub fn read_workers(word: &str) -> Option<u32>
    ensures spelled { IfSome result (λ workers. word.now ≡ decimal workers) }
    ensures within { IfSome result AreWorkers }
    ensures none { IfNone result ((workers : ℕ) → AreWorkers workers → word.now ≡ decimal workers
        → ⊥) }
{
    let workers = read_small_number(MAX_WORKERS, word)?;
    if workers == 0 {
        return None;
    }
    Some(workers)
}
