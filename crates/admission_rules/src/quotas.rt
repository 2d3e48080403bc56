//! A number of paths that a client may have at once.

ghost use Rattle.std.specs.Prelude.{◌≡◌};
ghost use Rattle.admission_rules.specs.Senses.{quota, numbers_of};
ghost use Rattle.admission_rules.specs.Tallies.{no_tally};

use crate::rule_names::RuleName;
use crate::{Rule, Tally, Wish};

/// Denies a path where as many as the limit are granted and not freed.
#[derive(Debug, Drop)]
pub struct Quota {
    limit: u32,
    tally: Tally,
}

impl Quota {
    /// A quota of so many paths, of which none is granted.
    pub fn new(limit: u32) -> Quota
        ensures limit { result.limit ≡ limit }
        ensures tally { result.tally ≡ no_tally }
    {
        Quota {
            limit,
            tally: Tally::none(),
        }
    }
}

impl Rule for Quota {
    ghost sense = { λ rule. quota rule.limit };

    ghost numbers = { λ rule. numbers_of rule.tally };

    fn name(&self) -> RuleName {
        RuleName::Quota
    }

    fn allows(&self, _wish: &Wish) -> bool {
        self.tally.standing() < u64::from(self.limit)
    }

    fn granted(&mut self, _wish: &Wish) {
        self.tally.count_grant();
    }

    fn freed(&mut self, _wish: &Wish) {
        self.tally.count_free();
    }

    fn tally(&self) -> Tally {
        self.tally
    }
}
