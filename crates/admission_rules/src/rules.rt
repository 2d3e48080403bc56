//! What a rule is asked, and what it is told.

ghost use Rattle.std.specs.Prelude.{◌≡◌, ℕ, List};
ghost use Rattle.admission_rules.specs.Senses.{Sense};

use crate::Tally;
use crate::rule_names::RuleName;
use rail_types::Window;

/// What is known of a path before it is granted: the train's length in metres, and the windows of
/// ticks in which it may depart and arrive. Of a path that is given both windows are single ticks.
#[derive(Clone, Copy, Debug, PartialEq, Eq)]
pub struct Wish {
    pub length_m: u32,
    pub depart: Window,
    pub arrive: Window,
}

/// A rule by which the grant of a path may be denied. What it says follows from a few numbers that
/// it keeps and from the wish; they change by what it is told alone. No call takes memory. Rules of
/// clients that are served at once are `Send`.
pub trait Rule: Drop {
    /// The rule's name, and what follows from its numbers. No call changes it.
    ghost sense: { Self → Sense };

    /// The numbers that it keeps.
    ghost numbers: { Self → List ℕ };

    /// The rule's name.
    fn name(&self) -> RuleName
        ensures { result ≡ (sense self.now).name };

    /// Whether a path may be granted.
    fn allows(&self, wish: &Wish) -> bool
        ensures { result ≡ (sense self.now).allows (numbers self.now) wish.now };

    /// Tells that a path was granted.
    fn granted(&mut self, wish: &Wish)
        ensures sense { sense self.new ≡ sense self.old }
        ensures numbers { numbers self.new
            ≡ (sense self.old).after_grant (numbers self.old) wish.now };

    /// Tells that a path was freed which had been granted.
    fn freed(&mut self, wish: &Wish)
        ensures sense { sense self.new ≡ sense self.old }
        ensures numbers { numbers self.new
            ≡ (sense self.old).after_free (numbers self.old) wish.now };

    /// How often it was told of each.
    fn tally(&self) -> Tally
        ensures { result ≡ (sense self.now).tally (numbers self.now) };
}
