//! Laws of rules, each on a function that does nothing.

ghost use Rattle.std.specs.Prelude.{◌≡◌, ◌↔◌, true, ℤ};
ghost use Rattle.rail_types.specs.declared.paths.Window.{Window as window_type};
ghost use Rattle.admission_rules.specs.Senses.{HoldsTick, holds_tick};

/// A curfew's test of a window says whether it holds one of the curfew's ticks.
pub fn curfews_name_their_ticks()
    ensures { (window : window_type) (from to : ℤ)
        → (holds_tick window from to ≡ true) ↔ HoldsTick window from to }
{}
