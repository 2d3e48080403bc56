//! Words read as an order.

ghost use Rattle.std.specs.Prelude.{◌≡◌, codes, IfOk, IsErrOf, map, option_map, string_bytes};
ghost use Rattle.command_words.specs.Orders.{AreWords, Asks, AskRules, rules_of};
ghost use Rattle.command_words.specs.declared.orders.Order.{Order as order_type};

use crate::batches::read_batch;
use crate::capacities::read_capacity;
use crate::carries::read_carry;
use crate::checks::read_check;
use crate::demos::read_demo;
use crate::grants::read_stairs;
use crate::orders::Order;
use crate::serves::read_serve;
use canonical_words::{parse_init, parse_list, parse_move};
use command_line::rule_words::RuleWord;
use command_line::{Setting, WordsFault, has_only, optional_value, read_settings, single_value};
use no_memory::NoMemory;
use rail_types::List;
use std::alloc::Global;

/// Reads words as an order. Any words that spell no order are `NotUnderstood`.
pub fn read_words(alloc: Global, words: &[String]) -> Result<Order, WordsFault>
    ensures understood { IfOk result (λ order. AreWords (map string_bytes words.now) order) }
    ensures refused { IsErrOf result WordsFault.NotUnderstood
        → (order : order_type) → AreWords (map string_bytes words.now) order → ⊥ }
{
    let Some((command, options)) = words.split_first() else {
        return Err(WordsFault::NotUnderstood);
    };
    match read_settings(alloc, options) {
        Ok(settings) => read_order(alloc, command.as_str(), settings.as_slice()),
        Err(fault) => Err(fault),
    }
}

/// Reads the rules of an order's words, in the words' order; only `serve` and `batch` have any. Any
/// words that spell no order are `NotUnderstood`.
pub fn rule_words(alloc: Global, words: &[String]) -> Result<List<RuleWord>, WordsFault>
    ensures understood { IfOk result (AskRules (map string_bytes words.now)) }
    ensures refused { IsErrOf result WordsFault.NotUnderstood
        → (order : order_type) → AreWords (map string_bytes words.now) order → ⊥ }
{
    match read_words(alloc, words) {
        Ok(order) => Ok(rules_in(alloc, order)),
        Err(fault) => Err(fault),
    }
}

// The rules of an order.
fn rules_in(alloc: Global, order: Order) -> List<RuleWord>
    ensures { result ≡ rules_of order }
{
    match order {
        Order::Serve { rules, .. } => rules,
        Order::Batch { rules, .. } => rules,
        _ => List::new(alloc),
    }
}

// The order that a command word and options ask for.
fn read_order(alloc: Global, command: &str, settings: &[Setting<'_>]) -> Result<Order, WordsFault>
    ensures understood { IfOk result (λ order. Asks command.now settings.now order) }
    ensures refused { IsErrOf result WordsFault.NotUnderstood
        → (order : order_type) → Asks command.now settings.now order → ⊥ }
{
    if command == "list" {
        return read_list(alloc, settings);
    }
    if command == "init" {
        return read_init(alloc, settings);
    }
    if command == "stairs" {
        return read_stairs(alloc, settings);
    }
    if command == "capacity" {
        return read_capacity(alloc, settings);
    }
    if command == "serve" {
        return read_serve(alloc, settings);
    }
    if command == "demo" {
        return read_demo(alloc, settings);
    }
    if command == "check" {
        return read_check(alloc, settings);
    }
    if command == "batch" {
        return read_batch(alloc, settings);
    }
    if command == "carry" {
        return read_carry(alloc, settings);
    }
    Err(WordsFault::NotUnderstood)
}

// The order that options of `list` ask for.
fn read_list(alloc: Global, settings: &[Setting<'_>]) -> Result<Order, WordsFault>
    ensures understood { IfOk result (λ order. Asks (codes "list") settings.now order) }
    ensures refused { IsErrOf result WordsFault.NotUnderstood
        → (order : order_type) → Asks (codes "list") settings.now order → ⊥ }
{
    if !has_only(&["network", "out"], settings) {
        return Err(WordsFault::NotUnderstood);
    }
    let network = match single_value(alloc, "network", settings) {
        Ok(network) => network,
        Err(fault) => return Err(fault),
    };
    let out = match single_value(alloc, "out", settings) {
        Ok(out) => out,
        Err(fault) => return Err(fault),
    };
    match parse_list(alloc, network, out) {
        Ok(texts) => Ok(Order::Tables {
            network: texts.network,
            out: texts.out,
        }),
        Err(NoMemory) => Err(WordsFault::Memory),
    }
}

// The order that options of `init` ask for.
fn read_init(alloc: Global, settings: &[Setting<'_>]) -> Result<Order, WordsFault>
    ensures understood { IfOk result (λ order. Asks (codes "init") settings.now order) }
    ensures refused { IsErrOf result WordsFault.NotUnderstood
        → (order : order_type) → Asks (codes "init") settings.now order → ⊥ }
{
    if !has_only(&["network", "base", "journal", "from"], settings) {
        return Err(WordsFault::NotUnderstood);
    }
    let network = match single_value(alloc, "network", settings) {
        Ok(network) => network,
        Err(fault) => return Err(fault),
    };
    let base = match single_value(alloc, "base", settings) {
        Ok(base) => base,
        Err(fault) => return Err(fault),
    };
    let journal = match single_value(alloc, "journal", settings) {
        Ok(journal) => journal,
        Err(fault) => return Err(fault),
    };
    let from = match optional_value(alloc, "from", settings) {
        Ok(from) => from,
        Err(fault) => return Err(fault),
    };
    match init_order(alloc, network, base, journal, from) {
        Ok(order) => Ok(order),
        Err(NoMemory) => Err(WordsFault::Memory),
    }
}

// An order to begin a journal, or to move one.
fn init_order(
    alloc: Global,
    network: &str,
    base: &str,
    journal: &str,
    from: Option<&str>,
) -> Result<Order, NoMemory>
    ensures { IfOk result (λ order. order ≡ Order.Init network.now base.now journal.now
        (option_map (λ name. name.now) from.entry)) }
{
    match from {
        None => {
            let texts = parse_init(alloc, network, base, journal)?;
            Ok(Order::Init {
                network: texts.network,
                base: texts.base,
                journal: texts.journal,
                from: None,
            })
        }
        Some(from) => {
            let texts = parse_move(alloc, network, base, journal, from)?;
            Ok(Order::Init {
                network: texts.network,
                base: texts.base,
                journal: texts.journal,
                from: Some(texts.from),
            })
        }
    }
}
