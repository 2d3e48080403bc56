//! The rules of clients, by their names.

ghost use Rattle.std.specs.Prelude.{◌≡◌, ◌≢◌, ◌++◌, ℕ, List, IfOk, OnOk};
ghost use Rattle.admission_rules.specs.Clients.{if_named, rules_named};

use no_memory::NoMemory;
use rail_types::Name;
use std::alloc::Global;

/// Rules of a client of this name, in order.
#[derive(Drop)]
pub struct ClientRules<L> {
    pub client: Name,
    pub rules: Vec<L>,
}

/// Takes the rules of a client out of those of all: those in the elements with its name, in order.
/// For want of memory a part of them is lost.
pub fn take_rules<L: Drop>(
    alloc: Global,
    client: &Name,
    all: &mut [ClientRules<L>],
) -> Result<Vec<L>, NoMemory>
    ensures taken { IfOk result (λ rules. rules.items ≡ rules_named client.now all.old) }
    ensures others { (other : List ℕ) → other ≢ client.now
        → rules_named other all.new ≡ rules_named other all.old }
{
    let mut taken = Vec::new(alloc);
    for one in all.iter_mut() {
        take_named(client, one, &mut taken)?;
    }
    Ok(taken)
}

// Moves the rules of an element behind others, where it has the client's name.
fn take_named<L: Drop>(
    client: &Name,
    one: &mut ClientRules<L>,
    taken: &mut Vec<L>,
) -> Result<(), NoMemory>
    ensures taken { OnOk result
        (taken.new.items ≡ taken.old.items ++ if_named client.now one.old) }
    ensures others { (other : List ℕ) → other ≢ client.now
        → if_named other one.new ≡ if_named other one.old }
{
    if !one.client.is_same(client) {
        return Ok(());
    }
    taken.append(&mut one.rules)?;
    Ok(())
}
