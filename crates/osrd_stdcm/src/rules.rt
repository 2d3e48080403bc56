//! The rules that words ask for, made.

ghost use Rattle.std.specs.Prelude.{IfOk, map, string_bytes};
ghost use Rattle.osrd_stdcm.specs.Asked.{AreAsked};

use crate::built_rules::{BuiltRule, build_rules};
use admission_rules::client_rules::ClientRules;
use command_words::{WordsFault, rule_words};
use no_memory::NoMemory;
use std::alloc::Global;

/// The rules that the words ask for, in the words' order, to be handed to `run`: none where
/// the words are not understood.
pub fn rules_of_words(
    alloc: Global,
    words: &[String],
) -> Result<Vec<ClientRules<BuiltRule>>, NoMemory>
    ensures { IfOk result (λ rules. AreAsked (map string_bytes words.now) rules.items) }
{
    match rule_words(alloc, words) {
        Ok(asked) => build_rules(alloc, asked.as_slice()),
        Err(WordsFault::NotUnderstood) => Ok(Vec::new(alloc)),
        Err(WordsFault::Memory) => Err(NoMemory),
    }
}
