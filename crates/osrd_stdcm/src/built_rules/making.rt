//! Rules, made as words ask for them.

ghost use Rattle.std.specs.Prelude.{◌≡◌, IfOk, map};
ghost use Rattle.osrd_stdcm.specs.Built.{rules_asked, rules_in, stand_asked, standing};

use crate::built_rules::rules::BuiltRule;
use admission_rules::client_rules::ClientRules;
use admission_rules::{Curfew, Longest, Quota};
use command_line::rule_words::{RuleKind, RuleWord};
use no_memory::NoMemory;
use std::alloc::Global;

/// The rules that words ask for, in the words' order: one of its client for
/// each. None was told of a path.
pub fn build_rules(
    alloc: Global,
    words: &[RuleWord],
) -> Result<Vec<ClientRules<BuiltRule>>, NoMemory>
    ensures { IfOk result (λ rules. map rules_in rules.items ≡ map rules_asked words.now) }
{
    let mut rules = Vec::new(alloc);
    for word in words {
        rules.push(rules_of_word(alloc, word)?)?;
    }
    Ok(rules)
}

// The rule that a word asks for, with its client.
fn rules_of_word(alloc: Global, word: &RuleWord) -> Result<ClientRules<BuiltRule>, NoMemory>
    ensures { IfOk result (λ rules. rules_in rules ≡ rules_asked word.now) }
{
    let mut rules = Vec::new(alloc);
    rules.push(build_rule(&word.kind))?;
    Ok(ClientRules {
        client: word.client.copy(alloc)?,
        rules,
    })
}

// A rule of this kind that was told of no path.
fn build_rule(kind: &RuleKind) -> BuiltRule
    ensures { standing result ≡ stand_asked kind.now }
{
    match kind {
        RuleKind::Quota(limit) => BuiltRule::Quota(Quota::new(*limit)),
        RuleKind::Curfew(from, to) => BuiltRule::Curfew(Curfew::new(*from, *to)),
        RuleKind::Longest(metres) => BuiltRule::Longest(Longest::new(*metres)),
    }
}
