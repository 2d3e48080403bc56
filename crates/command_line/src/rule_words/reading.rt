//! Rules, and the words that spell them.

ghost use Rattle.std.specs.Prelude.{◌≡◌, ◌↔◌, List as list_of, IfOk, IsErrOf, IsTrue, map};
ghost use Rattle.command_line.specs.Rules.{AreRulesOf, IsRuleWord, NamesOneOf, rule_text};
ghost use Rattle.command_line.specs.declared.rule_words.reading.RuleWord.{RuleWord as rule_type};

use crate::client_words::ClientWord;
use crate::rule_words::kinds::{RuleKind, read_kind};
use crate::{WordsFault, cut_at_equals};
use no_memory::NoMemory;
use rail_types::{List, Name, is_client_name};
use std::alloc::Global;

/// A rule of the words, `NAME=quota:N`, `NAME=curfew:FROM:TO` or `NAME=longest:METRES`: the client
/// whom it binds, and what it is.
#[derive(Debug, Drop)]
pub struct RuleWord {
    pub client: Name,
    pub kind: RuleKind,
}

/// Reads words as rules of these clients, one a word, in the words' order.
pub fn read_rules(
    alloc: Global,
    clients: &[ClientWord],
    words: &[&str],
) -> Result<List<RuleWord>, WordsFault>
    ensures understood { IfOk result (AreRulesOf clients.now) }
    ensures spelled { IfOk result
        (λ rules. map rule_text rules ≡ map (λ word. word.now) words.now) }
    ensures refused { IsErrOf result WordsFault.NotUnderstood
        → (rules : list_of rule_type) → AreRulesOf clients.now rules
        → map rule_text rules ≡ map (λ word. word.now) words.now → ⊥ }
{
    let mut rules = List::new(alloc);
    for word in words {
        let rule = match read_rule(alloc, word) {
            Ok(rule) => rule,
            Err(fault) => return Err(fault),
        };
        if !names_one(&rule, clients) {
            return Err(WordsFault::NotUnderstood);
        }
        let Ok(()) = rules.push(rule) else {
            return Err(WordsFault::Memory);
        };
    }
    Ok(rules)
}

/// Reads a word as a rule, whomever it names.
pub fn read_rule(alloc: Global, word: &str) -> Result<RuleWord, WordsFault>
    ensures understood { IfOk result IsRuleWord }
    ensures spelled { IfOk result (λ rule. rule_text rule ≡ word.now) }
    ensures refused { IsErrOf result WordsFault.NotUnderstood
        → (rule : rule_type) → IsRuleWord rule → rule_text rule ≡ word.now → ⊥ }
{
    let Some((name, kind)) = cut_at_equals(word) else {
        return Err(WordsFault::NotUnderstood);
    };
    if !is_client_name(name.as_bytes()) {
        return Err(WordsFault::NotUnderstood);
    }
    let Some(kind) = read_kind(kind) else {
        return Err(WordsFault::NotUnderstood);
    };
    match Name::from_bytes(alloc, name.as_bytes()) {
        Ok(client) => Ok(RuleWord { client, kind }),
        Err(NoMemory) => Err(WordsFault::Memory),
    }
}

// Whether a rule names one of these clients.
fn names_one(rule: &RuleWord, clients: &[ClientWord]) -> bool
    ensures { IsTrue result ↔ NamesOneOf clients.now rule.now }
{
    clients
        .iter()
        .any(|client| client.client.is_same(&rule.client))
}
