//! The options of `batch`, read.

ghost use Rattle.std.specs.Prelude.{◌≡◌, ◌∷◌, [], ℕ, List, codes, IfOk, IsErrOf};
ghost use Rattle.command_line.specs.Spelling.{values_under};
ghost use Rattle.command_words.specs.Orders.{Asks};
ghost use Rattle.command_words.specs.declared.orders.Order.{Order as order_type};

use crate::file_names::file_names;
use crate::orders::Order;
use canonical_words::parse_batch;
use command_line::batch_words::read_batch_word;
use command_line::{Setting, WordsFault, has_only, single_value, values_of};
use no_memory::NoMemory;
use std::alloc::Global;

/// The order that options of `batch` ask for.
pub(crate) fn read_batch(alloc: Global, settings: &[Setting<'_>]) -> Result<Order, WordsFault>
    ensures understood { IfOk result (λ order. Asks (codes "batch") settings.now order) }
    ensures refused { IsErrOf result WordsFault.NotUnderstood
        → (order : order_type) → Asks (codes "batch") settings.now order → ⊥ }
{
    if !has_only(
        &[
            "network", "trains", "base", "journal", "client", "workers", "rule",
        ],
        settings,
    ) {
        return Err(WordsFault::NotUnderstood);
    }
    let names = match file_names(alloc, settings) {
        Ok(names) => names,
        Err(fault) => return Err(fault),
    };
    let words = match list_words(alloc, settings) {
        Ok(words) => words,
        Err(fault) => return Err(fault),
    };
    let rules = values_of(alloc, "rule", settings)?;
    let texts = match parse_batch(alloc, &names, words.trains, words.client, words.workers) {
        Ok(texts) => texts,
        Err(NoMemory) => return Err(WordsFault::Memory),
    };
    let batch = match read_batch_word(
        alloc,
        texts.client.as_str(),
        texts.workers.as_str(),
        rules.as_slice(),
    ) {
        Ok(batch) => batch,
        Err(fault) => return Err(fault),
    };
    Ok(Order::Batch {
        network: texts.network,
        trains: texts.trains,
        base: texts.base,
        journal: texts.journal,
        client: batch.client,
        workers: batch.workers,
        rules: batch.rules,
    })
}

/// The words for the trains, the client and the workers of a batch.
#[derive(Clone, Copy)]
struct ListWords<'a> {
    trains: &'a str,
    client: &'a str,
    workers: &'a str,
}

// The words under `trains`, `client` and `workers`, each given once.
fn list_words<'a>(alloc: Global, settings: &[Setting<'a>]) -> Result<ListWords<'a>, WordsFault>
    ensures trains { IfOk result
        (λ words. values_under (codes "trains") settings.now ≡ words.trains.now ∷ []) }
    ensures client { IfOk result
        (λ words. values_under (codes "client") settings.now ≡ words.client.now ∷ []) }
    ensures workers { IfOk result
        (λ words. values_under (codes "workers") settings.now ≡ words.workers.now ∷ []) }
    ensures other { IsErrOf result WordsFault.NotUnderstood → (trains client workers : List ℕ)
        → values_under (codes "trains") settings.now ≡ trains ∷ []
        → values_under (codes "client") settings.now ≡ client ∷ []
        → values_under (codes "workers") settings.now ≡ workers ∷ [] → ⊥ }
{
    let trains = match single_value(alloc, "trains", settings) {
        Ok(trains) => trains,
        Err(fault) => return Err(fault),
    };
    let client = match single_value(alloc, "client", settings) {
        Ok(client) => client,
        Err(fault) => return Err(fault),
    };
    let workers = match single_value(alloc, "workers", settings) {
        Ok(workers) => workers,
        Err(fault) => return Err(fault),
    };
    Ok(ListWords {
        trains,
        client,
        workers,
    })
}
