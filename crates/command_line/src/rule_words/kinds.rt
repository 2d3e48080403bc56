//! What a rule may be, and the texts for it.

ghost use Rattle.std.specs.Prelude.{◌≡◌, ℕ, List, codes, IfNone, IfSome};
ghost use Rattle.command_line.specs.Rules.{IsKindWithinLimits, kind_text, tag_of, value_text};
ghost use Rattle.command_line.specs.declared.rule_words.kinds.RuleKind.{RuleKind as kind_type};

use crate::client_words::cut_at_colon;
use crate::read_small_number;
use crate::rule_words::ticks::read_tick;
use rail_types::Tick;

/// Greatest number of paths of a quota, and greatest length of a train
/// that a rule may name, in metres.
pub const MAX_RULE_NUMBER: u32 = 1_000_000;

/// What a rule of the words is.
#[derive(Clone, Copy, Debug, PartialEq, Eq)]
pub enum RuleKind {
    /// At most so many paths at once.
    Quota(u32),
    /// No departure at a tick from the first up to and without the second.
    Curfew(Tick, Tick),
    /// No train of more than so many metres.
    Longest(u32),
}

/// Reads a text as what a rule is: `quota:N`, `curfew:FROM:TO` or `longest:METRES`.
pub(crate) fn read_kind(text: &str) -> Option<RuleKind>
    ensures formed { IfSome result IsKindWithinLimits }
    ensures spelled { IfSome result (λ kind. kind_text kind ≡ text.now) }
    ensures none { IfNone result ((kind : kind_type) → IsKindWithinLimits kind
        → kind_text kind ≡ text.now → ⊥) }
{
    let Some((tag, value)) = cut_at_colon(text) else {
        return None;
    };
    let Some(kind) = read_value(tag, value) else {
        return None;
    };
    Some(kind)
}

// What a rule is whose text has these two parts.
fn read_value(tag: &str, value: &str) -> Option<RuleKind>
    ensures formed { IfSome result IsKindWithinLimits }
    ensures tag { IfSome result (λ kind. tag_of kind ≡ tag.now) }
    ensures value { IfSome result (λ kind. value_text kind ≡ value.now) }
    ensures none { IfNone result ((kind : kind_type) → IsKindWithinLimits kind
        → tag_of kind ≡ tag.now → value_text kind ≡ value.now → ⊥) }
{
    if tag == "quota" {
        return read_quota(value);
    }
    if tag == "curfew" {
        return read_curfew(value);
    }
    if tag == "longest" {
        return read_longest(value);
    }
    None
}

// A quota of as many paths as the text says.
fn read_quota(value: &str) -> Option<RuleKind>
    ensures formed { IfSome result IsKindWithinLimits }
    ensures tag { IfSome result (λ kind. tag_of kind ≡ codes "quota") }
    ensures value { IfSome result (λ kind. value_text kind ≡ value.now) }
    ensures none { IfNone result ((kind : kind_type) → IsKindWithinLimits kind
        → tag_of kind ≡ codes "quota" → value_text kind ≡ value.now → ⊥) }
{
    let Some(limit) = read_small_number(MAX_RULE_NUMBER, value) else {
        return None;
    };
    Some(RuleKind::Quota(limit))
}

// A curfew of the ticks that the text says.
fn read_curfew(value: &str) -> Option<RuleKind>
    ensures formed { IfSome result IsKindWithinLimits }
    ensures tag { IfSome result (λ kind. tag_of kind ≡ codes "curfew") }
    ensures value { IfSome result (λ kind. value_text kind ≡ value.now) }
    ensures none { IfNone result ((kind : kind_type) → IsKindWithinLimits kind
        → tag_of kind ≡ codes "curfew" → value_text kind ≡ value.now → ⊥) }
{
    let Some((from, to)) = cut_at_colon(value) else {
        return None;
    };
    let Some(from) = read_tick(from) else {
        return None;
    };
    let Some(to) = read_tick(to) else {
        return None;
    };
    Some(RuleKind::Curfew(from, to))
}

// A greatest length of as many metres as the text says.
fn read_longest(value: &str) -> Option<RuleKind>
    ensures formed { IfSome result IsKindWithinLimits }
    ensures tag { IfSome result (λ kind. tag_of kind ≡ codes "longest") }
    ensures value { IfSome result (λ kind. value_text kind ≡ value.now) }
    ensures none { IfNone result ((kind : kind_type) → IsKindWithinLimits kind
        → tag_of kind ≡ codes "longest" → value_text kind ≡ value.now → ⊥) }
{
    let Some(metres) = read_small_number(MAX_RULE_NUMBER, value) else {
        return None;
    };
    Some(RuleKind::Longest(metres))
}
