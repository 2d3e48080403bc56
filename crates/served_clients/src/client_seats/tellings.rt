//! What the rules of a client are told of the entries that are found.

ghost use Rattle.std.specs.Prelude.{◌≡◌, IfOk, option_map, take};
ghost use Rattle.admission_rules.specs.Ruled.{stand};
ghost use Rattle.admission_rules.specs.Told.{wish_at};
ghost use Rattle.served_clients.specs.Tellings.{is_no_hold, may_tell as entry_may_tell};
ghost use Rattle.served_clients.specs.Tellings.{own_telling, own_tellings, telling_of, told_each};
ghost use Rattle.served_clients.specs.Tellings.{told_once};
ghost use Rattle.served_clients.specs.Tellings.{told_positions as positions_told};

use admission_rules::client_rules::{tell_freed, tell_granted, wish_of};
use admission_rules::{Rule, Wish};
use line_answers::history::History;
use no_memory::NoMemory;
use rail_types::{Deed, Entry, Name};
use std::alloc::Global;

/// What rules are told of an entry: that a path was granted, or that one
/// was freed, which was wished so.
#[derive(Clone, Copy, Debug, PartialEq, Eq)]
pub enum Telling {
    Granted(Wish),
    Freed(Wish),
}

/// The positions of the entries of a history of which rules may be told, which are all but the
/// holds. Who makes them once need not go through the history for each client.
pub fn told_positions(alloc: Global, history: &History) -> Result<Vec<u64>, NoMemory>
    ensures { IfOk result (λ places. places.items ≡ positions_told history.now.entries) }
{
    let mut places = Vec::new(alloc);
    for at in 0..history.front() {
        if may_tell(history.entry(at)) {
            places.push(at)?;
        }
    }
    Ok(places)
}

// Whether rules may be told of an entry.
fn may_tell(entry: Option<&Entry>) -> bool
    ensures { result ≡ entry_may_tell (option_map (λ entry. entry.now) entry.entry) }
{
    match entry {
        Some(entry) => is_no_hold(&entry.deed),
        None => false,
    }
}

fn is_no_hold(deed: &Deed) -> bool
    ensures { result ≡ is_no_hold deed.now }
{
    !matches!(deed, Deed::Hold(_, _))
}

/// What the rules of a client are told of its entries of a history, in order, by the positions of
/// those of which rules may be told.
pub(crate) fn tellings_of(
    alloc: Global,
    history: &History,
    places: &[u64],
    name: &Name,
) -> Result<Vec<Telling>, NoMemory>
    requires { places.now ≡ positions_told history.now.entries }
    ensures { IfOk result (λ tellings.
        tellings.items ≡ own_tellings history.now.entries name.now) }
{
    let mut tellings = Vec::new(alloc);
    for at in places {
        if let Some(telling) = own_telling(history, name, *at) {
            tellings.push(telling)?;
        }
    }
    Ok(tellings)
}

// What they are told of the entry at a position, where it is the client's.
fn own_telling(history: &History, name: &Name, at: u64) -> Option<Telling>
    ensures { result ≡ own_telling history.now.entries name.now at }
{
    let entry = history.entry(at)?;
    if !entry.owner.is_same(name) {
        return None;
    }
    telling_of(history, at, &entry.deed)
}

// What they are told of a deed behind so many entries.
fn telling_of(history: &History, before: u64, deed: &Deed) -> Option<Telling>
    ensures { result ≡ telling_of (take before history.now.entries) deed.now }
{
    match deed {
        Deed::Grant(_wanted, _path) => {
            let wish = wish_of(deed)?;
            Some(Telling::Granted(wish))
        }
        Deed::Free(freed) => {
            let wish = wish_before(history, before, *freed)?;
            Some(Telling::Freed(wish))
        }
        Deed::Hold(_claims, _reason) => None,
    }
}

// What was wished by one of the first so many entries.
fn wish_before(history: &History, before: u64, at: u64) -> Option<Wish>
    ensures { result ≡ wish_at (take before history.now.entries) at }
{
    if at >= before {
        return None;
    }
    let entry = history.entry(at)?;
    wish_of(&entry.deed)
}

/// The rules, once they were told these, one after another.
pub(crate) fn told<L: Rule>(mut rules: Vec<L>, tellings: &[Telling]) -> Vec<L>
    ensures { stand L.Rule result.items
        ≡ told_each tellings.now (stand L.Rule rules.items) }
{
    tell_each(rules.as_mut_slice(), tellings);
    rules
}

fn tell_each<L: Rule>(rules: &mut [L], tellings: &[Telling])
    ensures { stand L.Rule rules.new ≡ told_each tellings.now (stand L.Rule rules.old) }
{
    for telling in tellings {
        tell(rules, telling);
    }
}

fn tell<L: Rule>(rules: &mut [L], telling: &Telling)
    ensures { stand L.Rule rules.new ≡ told_once telling.now (stand L.Rule rules.old) }
{
    match *telling {
        Telling::Granted(wish) => tell_granted(rules, &Some(wish)),
        Telling::Freed(wish) => tell_freed(rules, &Some(wish)),
    }
}
