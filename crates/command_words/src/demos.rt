//! The options of `demo`, read.

ghost use Rattle.std.specs.Prelude.{codes, IfOk, IsErrOf};
ghost use Rattle.command_words.specs.Orders.{Asks};
ghost use Rattle.command_words.specs.declared.orders.Order.{Order as order_type};

use crate::orders::{MAX_DEMO_NUMBER, Order};
use canonical_words::parse_demo;
use command_line::{Setting, WordsFault, has_only, read_small_number, single_value};
use no_memory::NoMemory;
use std::alloc::Global;

/// The order that options of `demo` ask for.
pub(crate) fn read_demo(alloc: Global, settings: &[Setting<'_>]) -> Result<Order, WordsFault>
    ensures understood { IfOk result (λ order. Asks (codes "demo") settings.now order) }
    ensures refused { IsErrOf result WordsFault.NotUnderstood
        → (order : order_type) → Asks (codes "demo") settings.now order → ⊥ }
{
    if !has_only(&["number", "out"], settings) {
        return Err(WordsFault::NotUnderstood);
    }
    let number = match single_value(alloc, "number", settings) {
        Ok(number) => number,
        Err(fault) => return Err(fault),
    };
    let out = match single_value(alloc, "out", settings) {
        Ok(out) => out,
        Err(fault) => return Err(fault),
    };
    match parse_demo(alloc, number, out) {
        Ok(texts) => match read_small_number(MAX_DEMO_NUMBER, texts.number.as_str()) {
            Some(number) => Ok(Order::Demo {
                number,
                out: texts.out,
            }),
            None => Err(WordsFault::NotUnderstood),
        },
        Err(NoMemory) => Err(WordsFault::Memory),
    }
}
