//! How often a rule was told of a grant and of a freed one.

ghost use Rattle.std.specs.Prelude.{◌≡◌, ◌-◌};
ghost use Rattle.admission_rules.specs.Tallies.{with_free, with_grant};

/// How many paths were granted, and how many of them were freed. A count that
/// is the greatest number stays.
#[derive(Clone, Copy, Debug, Default, PartialEq, Eq)]
pub struct Tally {
    pub granted: u64,
    pub freed: u64,
}

impl Tally {
    pub(crate) fn none() -> Tally
        ensures granted { result.granted ≡ 0 }
        ensures freed { result.freed ≡ 0 }
    {
        Tally {
            granted: 0,
            freed: 0,
        }
    }

    pub(crate) fn count_grant(&mut self)
        ensures { self.new ≡ with_grant self.old }
    {
        self.granted = self.granted.saturating_add(1);
    }

    pub(crate) fn count_free(&mut self)
        ensures { self.new ≡ with_free self.old }
    {
        self.freed = self.freed.saturating_add(1);
    }

    // How many paths are granted and not freed.
    pub(crate) fn standing(&self) -> u64
        ensures { result ≡ self.now.granted - self.now.freed }
    {
        self.granted.saturating_sub(self.freed)
    }
}
