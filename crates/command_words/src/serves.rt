//! The options of `serve`, read.

ghost use Rattle.std.specs.Prelude.{codes, IfOk, IsErrOf};
ghost use Rattle.command_words.specs.Orders.{Asks};
ghost use Rattle.command_words.specs.declared.orders.Order.{Order as order_type};

use crate::file_names::file_names;
use crate::orders::Order;
use canonical_words::parse_serve;
use command_line::client_words::read_clients;
use command_line::proof_words::read_proofs;
use command_line::rule_words::read_rules;
use command_line::{Setting, WordsFault, has_only, single_value, values_of};
use no_memory::NoMemory;
use std::alloc::Global;

/// The order that options of `serve` ask for.
pub(crate) fn read_serve(alloc: Global, settings: &[Setting<'_>]) -> Result<Order, WordsFault>
    ensures understood { IfOk result (λ order. Asks (codes "serve") settings.now order) }
    ensures refused { IsErrOf result WordsFault.NotUnderstood
        → (order : order_type) → Asks (codes "serve") settings.now order → ⊥ }
{
    if !has_only(
        &[
            "network", "trains", "base", "journal", "client", "proof", "rule",
        ],
        settings,
    ) {
        return Err(WordsFault::NotUnderstood);
    }
    let names = match file_names(alloc, settings) {
        Ok(names) => names,
        Err(fault) => return Err(fault),
    };
    let trains = match single_value(alloc, "trains", settings) {
        Ok(trains) => trains,
        Err(fault) => return Err(fault),
    };
    let client_words = values_of(alloc, "client", settings)?;
    let clients = match read_clients(alloc, client_words.as_slice()) {
        Ok(clients) => clients,
        Err(fault) => return Err(fault),
    };
    let proof_words = values_of(alloc, "proof", settings)?;
    let proofs = match read_proofs(alloc, clients.as_slice(), proof_words.as_slice()) {
        Ok(proofs) => proofs,
        Err(fault) => return Err(fault),
    };
    let rule_words = values_of(alloc, "rule", settings)?;
    let rules = match read_rules(alloc, clients.as_slice(), rule_words.as_slice()) {
        Ok(rules) => rules,
        Err(fault) => return Err(fault),
    };
    match parse_serve(alloc, &names, trains) {
        Ok(texts) => Ok(Order::Serve {
            network: texts.network,
            trains: texts.trains,
            base: texts.base,
            journal: texts.journal,
            clients,
            proofs,
            rules,
        }),
        Err(NoMemory) => Err(WordsFault::Memory),
    }
}
