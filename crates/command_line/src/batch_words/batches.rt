//! A batch: its client, its workers and their rules, together.

ghost use Rattle.std.specs.Prelude.{◌≡◌, ℕ, List as list_of, decimal, IfOk, IsErrOf, map};
ghost use Rattle.command_line.specs.Clients.{client_text};
ghost use Rattle.command_line.specs.declared.client_words.clients.ClientWord.{
  ClientWord as client_type,
};
ghost use Rattle.command_line.specs.Rules.{rule_text};
ghost use Rattle.command_line.specs.declared.rule_words.reading.RuleWord.{RuleWord as rule_type};
ghost use Rattle.command_line.specs.Workers.{IsBatch};

use crate::WordsFault;
use crate::batch_words::clients::{read_batch_client, read_workers};
use crate::batch_words::rules::read_worker_rules;
use crate::client_words::ClientWord;
use crate::rule_words::RuleWord;
use rail_types::List;
use std::alloc::Global;

/// A batch of the words: its client, how many workers it has, and the rules by which paths
/// may be denied to each of them.
#[derive(Debug, Drop)]
pub struct BatchWord {
    pub client: ClientWord,
    pub workers: u32,
    pub rules: List<RuleWord>,
}

/// Reads words as a batch: one for its client, one for the number of its
/// workers, and one for each rule.
pub fn read_batch_word(
    alloc: Global,
    client: &str,
    workers: &str,
    rules: &[&str],
) -> Result<BatchWord, WordsFault>
    ensures understood { IfOk result (λ batch. IsBatch batch.client batch.workers batch.rules) }
    ensures client { IfOk result (λ batch. client_text batch.client ≡ client.now) }
    ensures workers { IfOk result (λ batch. workers.now ≡ decimal batch.workers) }
    ensures rules { IfOk result
        (λ batch. map rule_text batch.rules ≡ map (λ word. word.now) rules.now) }
    ensures refused { IsErrOf result WordsFault.NotUnderstood
        → (one : client_type) (many : ℕ) (all : list_of rule_type) → IsBatch one many all
        → client_text one ≡ client.now → workers.now ≡ decimal many
        → map rule_text all ≡ map (λ word. word.now) rules.now → ⊥ }
{
    let client = match read_batch_client(alloc, client) {
        Ok(client) => client,
        Err(fault) => return Err(fault),
    };
    let Some(workers) = read_workers(workers) else {
        return Err(WordsFault::NotUnderstood);
    };
    let rules = match read_worker_rules(alloc, &client.client, workers, rules) {
        Ok(rules) => rules,
        Err(fault) => return Err(fault),
    };
    Ok(BatchWord {
        client,
        workers,
        rules,
    })
}
