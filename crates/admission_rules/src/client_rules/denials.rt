//! The first rule that says no.

ghost use Rattle.std.specs.Prelude.{◌≡◌};
ghost use Rattle.admission_rules.specs.Ruled.{denied_by, first_no, stand};

use crate::rule_names::RuleName;
use crate::{Rule, Wish};

/// The name of the first of the rules that does not allow what is wished, None where each allows
/// it. Where nothing is wished, none is asked.
pub fn first_denial<L: Rule>(rules: &[L], wish: &Option<Wish>) -> Option<RuleName>
    ensures { result ≡ denied_by (stand L.Rule rules.now) wish.now }
{
    let Some(wish) = wish else {
        return None;
    };
    first_no(rules, wish)
}

// The name of the first of the rules that does not allow the wish.
fn first_no<L: Rule>(rules: &[L], wish: &Wish) -> Option<RuleName>
    ensures { result ≡ first_no (stand L.Rule rules.now) wish.now }
{
    for rule in rules {
        if !rule.allows(wish) {
            return Some(rule.name());
        }
    }
    None
}
