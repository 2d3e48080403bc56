//! The options of `check`, read.

ghost use Rattle.std.specs.Prelude.{codes, IfOk, IsErrOf};
ghost use Rattle.command_words.specs.Orders.{Asks};
ghost use Rattle.command_words.specs.declared.orders.Order.{Order as order_type};

use crate::file_names::file_names;
use crate::orders::Order;
use canonical_words::parse_check;
use command_line::{Setting, WordsFault, has_only, single_value};
use no_memory::NoMemory;
use std::alloc::Global;

/// The order that options of `check` ask for.
pub(crate) fn read_check(alloc: Global, settings: &[Setting<'_>]) -> Result<Order, WordsFault>
    ensures understood { IfOk result (λ order. Asks (codes "check") settings.now order) }
    ensures refused { IsErrOf result WordsFault.NotUnderstood
        → (order : order_type) → Asks (codes "check") settings.now order → ⊥ }
{
    if !has_only(&["network", "trains", "base", "journal", "proof"], settings) {
        return Err(WordsFault::NotUnderstood);
    }
    let names = match file_names(alloc, settings) {
        Ok(names) => names,
        Err(fault) => return Err(fault),
    };
    let trains = match single_value(alloc, "trains", settings) {
        Ok(trains) => trains,
        Err(fault) => return Err(fault),
    };
    let proof = match single_value(alloc, "proof", settings) {
        Ok(proof) => proof,
        Err(fault) => return Err(fault),
    };
    match parse_check(alloc, &names, trains, proof) {
        Ok(texts) => Ok(Order::Check {
            network: texts.network,
            trains: texts.trains,
            base: texts.base,
            journal: texts.journal,
            proof: texts.proof,
        }),
        Err(NoMemory) => Err(WordsFault::Memory),
    }
}
