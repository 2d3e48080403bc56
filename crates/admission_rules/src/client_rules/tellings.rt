//! What rules are told.

ghost use Rattle.std.specs.Prelude.{◌≡◌, map};
ghost use Rattle.admission_rules.specs.Ruled.{freed, granted, stand, with_free, with_grant};

use crate::{Rule, Wish};

/// Tells each of the rules that what was wished was granted. Where
/// nothing was wished, none is told.
pub fn tell_granted<L: Rule>(rules: &mut [L], wish: &Option<Wish>)
    ensures { stand L.Rule rules.new ≡ granted wish.now (stand L.Rule rules.old) }
{
    if let Some(wish) = wish {
        tell_each_granted(rules, wish);
    }
}

/// Tells each of the rules that what was wished was freed, once it had been granted. Where
/// nothing was wished, none is told.
pub fn tell_freed<L: Rule>(rules: &mut [L], wish: &Option<Wish>)
    ensures { stand L.Rule rules.new ≡ freed wish.now (stand L.Rule rules.old) }
{
    if let Some(wish) = wish {
        tell_each_freed(rules, wish);
    }
}

fn tell_each_granted<L: Rule>(rules: &mut [L], wish: &Wish)
    ensures { stand L.Rule rules.new
        ≡ map (λ rule. with_grant rule wish.now) (stand L.Rule rules.old) }
{
    for rule in rules.iter_mut() {
        rule.granted(wish);
    }
}

fn tell_each_freed<L: Rule>(rules: &mut [L], wish: &Wish)
    ensures { stand L.Rule rules.new
        ≡ map (λ rule. with_free rule wish.now) (stand L.Rule rules.old) }
{
    for rule in rules.iter_mut() {
        rule.freed(wish);
    }
}
