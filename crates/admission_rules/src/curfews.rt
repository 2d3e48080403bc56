//! Ticks at which a client's trains may not depart.

ghost use Rattle.std.specs.Prelude.{◌≡◌};
ghost use Rattle.admission_rules.specs.Senses.{curfew, holds_tick, numbers_of};
ghost use Rattle.admission_rules.specs.Tallies.{no_tally};

use crate::rule_names::RuleName;
use crate::{Rule, Tally, Wish};
use rail_types::{Tick, Window};

/// Denies a path whose window of departure holds a tick from `from` up to and without `to`.
#[derive(Debug, Drop)]
pub struct Curfew {
    from: Tick,
    to: Tick,
    tally: Tally,
}

impl Curfew {
    /// A curfew of the ticks from `from` up to and without `to`, which was told of no path. Where
    /// `from` is not less than `to` it denies none.
    pub fn new(from: Tick, to: Tick) -> Curfew
        ensures from { result.from ≡ from }
        ensures to { result.to ≡ to }
        ensures tally { result.tally ≡ no_tally }
    {
        Curfew {
            from,
            to,
            tally: Tally::none(),
        }
    }
}

impl Rule for Curfew {
    ghost sense = { λ rule. curfew rule.from rule.to };

    ghost numbers = { λ rule. numbers_of rule.tally };

    fn name(&self) -> RuleName {
        RuleName::Curfew
    }

    fn allows(&self, wish: &Wish) -> bool {
        !holds_tick(&wish.depart, self.from, self.to)
    }

    fn granted(&mut self, _wish: &Wish) {
        self.tally.count_grant();
    }

    fn freed(&mut self, _wish: &Wish) {
        self.tally.count_free();
    }

    fn tally(&self) -> Tally {
        self.tally
    }
}

// Whether a window holds a tick from `from` up to and without `to`.
fn holds_tick(window: &Window, from: Tick, to: Tick) -> bool
    ensures { result ≡ holds_tick window.now from to }
{
    window.from <= window.to && from < to && window.from < to && from <= window.to
}
