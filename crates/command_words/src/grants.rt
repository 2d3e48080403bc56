//! The options of `stairs`, read.

ghost use Rattle.std.specs.Prelude.{codes, IfOk, IsErrOf};
ghost use Rattle.command_words.specs.Orders.{Asks};
ghost use Rattle.command_words.specs.declared.orders.Order.{Order as order_type};

use crate::file_names::file_names;
use crate::orders::Order;
use canonical_words::parse_stairs;
use command_line::{Setting, WordsFault, has_only, read_number, single_value};
use no_memory::NoMemory;
use rail_types::MAX_NUMBER;
use std::alloc::Global;

/// The order that options of `stairs` ask for.
pub(crate) fn read_stairs(alloc: Global, settings: &[Setting<'_>]) -> Result<Order, WordsFault>
    ensures understood { IfOk result (λ order. Asks (codes "stairs") settings.now order) }
    ensures refused { IsErrOf result WordsFault.NotUnderstood
        → (order : order_type) → Asks (codes "stairs") settings.now order → ⊥ }
{
    if !has_only(&["network", "base", "journal", "entry", "out"], settings) {
        return Err(WordsFault::NotUnderstood);
    }
    let names = match file_names(alloc, settings) {
        Ok(names) => names,
        Err(fault) => return Err(fault),
    };
    let entry = match single_value(alloc, "entry", settings) {
        Ok(entry) => entry,
        Err(fault) => return Err(fault),
    };
    let out = match single_value(alloc, "out", settings) {
        Ok(out) => out,
        Err(fault) => return Err(fault),
    };
    match parse_stairs(alloc, names.network, names.base, names.journal, entry, out) {
        Ok(texts) => match read_number(MAX_NUMBER, texts.entry.as_str()) {
            Some(entry) => Ok(Order::Stairs {
                network: texts.network,
                base: texts.base,
                journal: texts.journal,
                entry,
                out: texts.out,
            }),
            None => Err(WordsFault::NotUnderstood),
        },
        Err(NoMemory) => Err(WordsFault::Memory),
    }
}
