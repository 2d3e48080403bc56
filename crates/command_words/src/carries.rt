//! The options of `carry`, read.

ghost use Rattle.std.specs.Prelude.{◌≡◌, ◌≢◌, ◌↔◌, codes, IfOk, IfSome, IsErrOf, IsTrue};
ghost use Rattle.std.specs.Prelude.{option_map};
ghost use Rattle.command_words.specs.Orders.{AreApart, Asks, IsOfItsOwn};
ghost use Rattle.command_words.specs.declared.orders.Order.{Order as order_type};

use crate::file_names::file_names;
use crate::orders::Order;
use canonical_words::{FileNames, parse_carry, parse_left};
use command_line::{Setting, Text, WordsFault, has_only, optional_value, single_value};
use no_memory::NoMemory;
use std::alloc::Global;

/// The order that options of `carry` ask for.
pub(crate) fn read_carry(alloc: Global, settings: &[Setting<'_>]) -> Result<Order, WordsFault>
    ensures understood { IfOk result (λ order. Asks (codes "carry") settings.now order) }
    ensures refused { IsErrOf result WordsFault.NotUnderstood
        → (order : order_type) → Asks (codes "carry") settings.now order → ⊥ }
{
    if !has_only(
        &["network", "base", "journal", "from", "from-base", "left"],
        settings,
    ) {
        return Err(WordsFault::NotUnderstood);
    }
    let names = match file_names(alloc, settings) {
        Ok(names) => names,
        Err(fault) => return Err(fault),
    };
    let from = match single_value(alloc, "from", settings) {
        Ok(from) => from,
        Err(fault) => return Err(fault),
    };
    let from_base = match single_value(alloc, "from-base", settings) {
        Ok(from_base) => from_base,
        Err(fault) => return Err(fault),
    };
    let left = match optional_value(alloc, "left", settings) {
        Ok(left) => left,
        Err(fault) => return Err(fault),
    };
    if !are_apart(&names, from, from_base, left) {
        return Err(WordsFault::NotUnderstood);
    }
    match carry_order(alloc, &names, from, from_base, left) {
        Ok(order) => Ok(order),
        Err(NoMemory) => Err(WordsFault::Memory),
    }
}

// Whether the old journal is not the new one, and the file for lines is none of the others.
fn are_apart(names: &FileNames<'_>, from: &str, from_base: &str, left: Option<&str>) -> bool
    ensures { IsTrue result ↔ AreApart names.now.network.now names.now.base.now
        names.now.journal.now from.now from_base.now (option_map (λ name. name.now) left.entry) }
{
    differ(from, names.journal) && is_left_apart(names, from, from_base, left)
}

// Whether the file for lines, where there is one, is none of the others.
fn is_left_apart(names: &FileNames<'_>, from: &str, from_base: &str, left: Option<&str>) -> bool
    ensures { IsTrue result ↔ IfSome (option_map (λ name. name.now) left.entry)
        (IsOfItsOwn names.now.network.now names.now.base.now names.now.journal.now
        from.now from_base.now) }
{
    match left {
        None => true,
        Some(left) => is_of_its_own(names, from, from_base, left),
    }
}

// Whether a file for lines is none of the other files.
fn is_of_its_own(names: &FileNames<'_>, from: &str, from_base: &str, left: &str) -> bool
    ensures { IsTrue result ↔ IsOfItsOwn names.now.network.now names.now.base.now
        names.now.journal.now from.now from_base.now left.now }
{
    differ(left, names.network)
        && differ(left, names.base)
        && differ(left, names.journal)
        && differ(left, from)
        && differ(left, from_base)
}

fn differ(one: &str, other: &str) -> bool
    ensures { IsTrue result ↔ (one.now ≢ other.now) }
{
    one != other
}

// An order to carry a journal, with a file for lines, or without.
fn carry_order(
    alloc: Global,
    names: &FileNames<'_>,
    from: &str,
    from_base: &str,
    left: Option<&str>,
) -> Result<Order, NoMemory>
    ensures { IfOk result (λ order. order ≡ Order.Carry names.now.network.now names.now.base.now
        names.now.journal.now from.now from_base.now (option_map (λ name. name.now) left.entry)) }
{
    let texts = parse_carry(alloc, names, from, from_base)?;
    let left = left_text(alloc, left)?;
    Ok(Order::Carry {
        network: texts.network,
        base: texts.base,
        journal: texts.journal,
        from: texts.from,
        from_base: texts.from_base,
        left,
    })
}

// The name of the file for lines, where there is one.
fn left_text(alloc: Global, left: Option<&str>) -> Result<Option<Text>, NoMemory>
    ensures { IfOk result (λ text. text ≡ option_map (λ name. name.now) left.entry) }
{
    match left {
        None => Ok(None),
        Some(name) => {
            let text = parse_left(alloc, name)?;
            Ok(Some(text))
        }
    }
}
