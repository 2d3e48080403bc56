//! Laws of the limits, on a function that does nothing.

ghost use Rattle.std.specs.Prelude.{◌≡◌};

use crate::orders::MAX_DEMO_NUMBER;

/// The limit of the number that a demonstration begins with.
pub fn limits_are_these()
    ensures { MAX_DEMO_NUMBER ≡ 2147483647 }
{}
