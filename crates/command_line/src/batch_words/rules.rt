//! The rules of a batch's workers, in words.

ghost use Rattle.std.specs.Prelude.{◌≡◌, ◌≤◌, ◌↔◌, List as list_of, IfOk, IsErrOf, IsTrue, map};
ghost use Rattle.std.specs.List.{All};
ghost use Rattle.command_line.specs.Rules.{rule_text};
ghost use Rattle.command_line.specs.declared.rule_words.reading.RuleWord.{RuleWord as rule_type};
ghost use Rattle.command_line.specs.Workers.{AreWorkerRules, IsRuleAmong, NamesOne};

use crate::WordsFault;
use crate::batch_words::clients::MAX_WORKERS;
use crate::batch_words::names::worker_names;
use crate::rule_words::{RuleWord, read_rule};
use no_memory::NoMemory;
use rail_types::{List, Name};
use std::alloc::Global;

/// Reads words as rules of a batch's workers, one a word, in the words' order.
pub fn read_worker_rules(
    alloc: Global,
    name: &Name,
    workers: u32,
    words: &[&str],
) -> Result<List<RuleWord>, WordsFault>
    requires few { workers ≤ MAX_WORKERS }
    ensures understood { IfOk result (AreWorkerRules name.now workers) }
    ensures spelled { IfOk result
        (λ rules. map rule_text rules ≡ map (λ word. word.now) words.now) }
    ensures refused { IsErrOf result WordsFault.NotUnderstood
        → (rules : list_of rule_type) → AreWorkerRules name.now workers rules
        → map rule_text rules ≡ map (λ word. word.now) words.now → ⊥ }
{
    match worker_names(alloc, name, workers) {
        Ok(names) => rules_among(alloc, names.as_slice(), words),
        Err(NoMemory) => Err(WordsFault::Memory),
    }
}

// The rules that words spell, each of one of these clients.
fn rules_among(alloc: Global, names: &[Name], words: &[&str]) -> Result<List<RuleWord>, WordsFault>
    ensures understood { IfOk result (All (IsRuleAmong names.now)) }
    ensures spelled { IfOk result
        (λ rules. map rule_text rules ≡ map (λ word. word.now) words.now) }
    ensures refused { IsErrOf result WordsFault.NotUnderstood
        → (rules : list_of rule_type) → All (IsRuleAmong names.now) rules
        → map rule_text rules ≡ map (λ word. word.now) words.now → ⊥ }
{
    let mut rules = List::new(alloc);
    for word in words {
        let rule = match read_rule(alloc, word) {
            Ok(rule) => rule,
            Err(fault) => return Err(fault),
        };
        if !names_one(&rule, names) {
            return Err(WordsFault::NotUnderstood);
        }
        let Ok(()) = rules.push(rule) else {
            return Err(WordsFault::Memory);
        };
    }
    Ok(rules)
}

// Whether a rule names one of these clients.
fn names_one(rule: &RuleWord, names: &[Name]) -> bool
    ensures { IsTrue result ↔ NamesOne names.now rule.now }
{
    names.iter().any(|name| name.is_same(&rule.client))
}
