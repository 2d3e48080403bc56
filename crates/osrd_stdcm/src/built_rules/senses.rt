//! What a rule of any of the three kinds says, by the rule in it.

ghost use Rattle.osrd_stdcm.specs.Built.{numbers_in, sense_in};

use crate::built_rules::rules::BuiltRule;
use admission_rules::rule_names::RuleName;
use admission_rules::{Rule, Tally, Wish};

impl Rule for BuiltRule {
    ghost sense = { sense_in };

    ghost numbers = { numbers_in };

    fn name(&self) -> RuleName {
        match self {
            BuiltRule::Quota(rule) => rule.name(),
            BuiltRule::Curfew(rule) => rule.name(),
            BuiltRule::Longest(rule) => rule.name(),
        }
    }

    fn allows(&self, wish: &Wish) -> bool {
        match self {
            BuiltRule::Quota(rule) => rule.allows(wish),
            BuiltRule::Curfew(rule) => rule.allows(wish),
            BuiltRule::Longest(rule) => rule.allows(wish),
        }
    }

    fn granted(&mut self, wish: &Wish) {
        match self {
            BuiltRule::Quota(rule) => rule.granted(wish),
            BuiltRule::Curfew(rule) => rule.granted(wish),
            BuiltRule::Longest(rule) => rule.granted(wish),
        }
    }

    fn freed(&mut self, wish: &Wish) {
        match self {
            BuiltRule::Quota(rule) => rule.freed(wish),
            BuiltRule::Curfew(rule) => rule.freed(wish),
            BuiltRule::Longest(rule) => rule.freed(wish),
        }
    }

    fn tally(&self) -> Tally {
        match self {
            BuiltRule::Quota(rule) => rule.tally(),
            BuiltRule::Curfew(rule) => rule.tally(),
            BuiltRule::Longest(rule) => rule.tally(),
        }
    }
}
