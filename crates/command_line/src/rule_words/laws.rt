//! Laws of the limits, on a function that does nothing.

ghost use Rattle.std.specs.Prelude.{◌≡◌};

use crate::rule_words::kinds::MAX_RULE_NUMBER;

/// The limit of the numbers of rules.
pub fn limits_are_these()
    ensures { MAX_RULE_NUMBER ≡ 1000000 }
{}
