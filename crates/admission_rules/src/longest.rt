//! The length that a client's trains may have.

ghost use Rattle.std.specs.Prelude.{◌≡◌};
ghost use Rattle.admission_rules.specs.Senses.{longest, numbers_of};
ghost use Rattle.admission_rules.specs.Tallies.{no_tally};

use crate::rule_names::RuleName;
use crate::{Rule, Tally, Wish};

/// Denies a path whose train is longer than so many metres.
#[derive(Debug, Drop)]
pub struct Longest {
    metres: u32,
    tally: Tally,
}

impl Longest {
    /// A rule that allows trains of up to so many metres, and which was told of no path.
    pub fn new(metres: u32) -> Longest
        ensures metres { result.metres ≡ metres }
        ensures tally { result.tally ≡ no_tally }
    {
        Longest {
            metres,
            tally: Tally::none(),
        }
    }
}

impl Rule for Longest {
    ghost sense = { λ rule. longest rule.metres };

    ghost numbers = { λ rule. numbers_of rule.tally };

    fn name(&self) -> RuleName {
        RuleName::Longest
    }

    fn allows(&self, wish: &Wish) -> bool {
        wish.length_m <= self.metres
    }

    fn granted(&mut self, _wish: &Wish) {
        self.tally.count_grant();
    }

    fn freed(&mut self, _wish: &Wish) {
        self.tally.count_free();
    }

    fn tally(&self) -> Tally {
        self.tally
    }
}
