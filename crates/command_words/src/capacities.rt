//! The options of `capacity`, read.

ghost use Rattle.std.specs.Prelude.{◌≡◌, ◌∷◌, [], ℕ, List, codes, decimal, IfNone, IfOk, IfSome};
ghost use Rattle.std.specs.Prelude.{IsErrOf};
ghost use Rattle.command_line.specs.Spelling.{values_under};
ghost use Rattle.command_words.specs.Orders.{AreTicks, AreZones, Asks};
ghost use Rattle.command_words.specs.declared.orders.Order.{Order as order_type};

use crate::file_names::file_names;
use crate::orders::Order;
use canonical_words::{StretchWords, parse_capacity};
use command_line::{Setting, WordsFault, has_only, read_small_number, single_value};
use no_memory::NoMemory;
use rail_types::MAX_TICK;
use std::alloc::Global;

/// Greatest tick of a window.
const LAST_TICK: u32 = MAX_TICK as u32;

/// The order that options of `capacity` ask for.
pub(crate) fn read_capacity(alloc: Global, settings: &[Setting<'_>]) -> Result<Order, WordsFault>
    ensures understood { IfOk result (λ order. Asks (codes "capacity") settings.now order) }
    ensures refused { IsErrOf result WordsFault.NotUnderstood
        → (order : order_type) → Asks (codes "capacity") settings.now order → ⊥ }
{
    if !has_only(
        &[
            "network", "base", "journal", "first", "last", "from", "to", "out",
        ],
        settings,
    ) {
        return Err(WordsFault::NotUnderstood);
    }
    let names = match file_names(alloc, settings) {
        Ok(names) => names,
        Err(fault) => return Err(fault),
    };
    let stretch = match stretch_words(alloc, settings) {
        Ok(stretch) => stretch,
        Err(fault) => return Err(fault),
    };
    let out = match single_value(alloc, "out", settings) {
        Ok(out) => out,
        Err(fault) => return Err(fault),
    };
    let texts = match parse_capacity(alloc, &names, &stretch, out) {
        Ok(texts) => texts,
        Err(NoMemory) => return Err(WordsFault::Memory),
    };
    let Some(zones) = read_zones(texts.first.as_str(), texts.last.as_str()) else {
        return Err(WordsFault::NotUnderstood);
    };
    let Some(window) = read_window(texts.from.as_str(), texts.to.as_str()) else {
        return Err(WordsFault::NotUnderstood);
    };
    Ok(Order::Capacity {
        network: texts.network,
        base: texts.base,
        journal: texts.journal,
        first: zones.first,
        last: zones.last,
        from: window.from,
        to: window.to,
        out: texts.out,
    })
}

// The words under `first`, `last`, `from` and `to`, each given once.
fn stretch_words<'a>(
    alloc: Global,
    settings: &[Setting<'a>],
) -> Result<StretchWords<'a>, WordsFault>
    ensures first { IfOk result
        (λ words. values_under (codes "first") settings.now ≡ words.first.now ∷ []) }
    ensures last { IfOk result
        (λ words. values_under (codes "last") settings.now ≡ words.last.now ∷ []) }
    ensures from { IfOk result
        (λ words. values_under (codes "from") settings.now ≡ words.from.now ∷ []) }
    ensures to { IfOk result
        (λ words. values_under (codes "to") settings.now ≡ words.to.now ∷ []) }
    ensures other { IsErrOf result WordsFault.NotUnderstood → (first last from to : List ℕ)
        → values_under (codes "first") settings.now ≡ first ∷ []
        → values_under (codes "last") settings.now ≡ last ∷ []
        → values_under (codes "from") settings.now ≡ from ∷ []
        → values_under (codes "to") settings.now ≡ to ∷ [] → ⊥ }
{
    let first = match single_value(alloc, "first", settings) {
        Ok(first) => first,
        Err(fault) => return Err(fault),
    };
    let last = match single_value(alloc, "last", settings) {
        Ok(last) => last,
        Err(fault) => return Err(fault),
    };
    let from = match single_value(alloc, "from", settings) {
        Ok(from) => from,
        Err(fault) => return Err(fault),
    };
    let to = match single_value(alloc, "to", settings) {
        Ok(to) => to,
        Err(fault) => return Err(fault),
    };
    Ok(StretchWords {
        first,
        last,
        from,
        to,
    })
}

/// Zones, the first to the last.
#[derive(Clone, Copy)]
struct Zones {
    first: u32,
    last: u32,
}

// The zones that two words spell.
fn read_zones(first: &str, last: &str) -> Option<Zones>
    ensures first { IfSome result (λ zones. first.now ≡ decimal zones.first) }
    ensures last { IfSome result (λ zones. last.now ≡ decimal zones.last) }
    ensures within { IfSome result (λ zones. AreZones zones.first zones.last) }
    ensures none { IfNone result ((least greatest : ℕ) → AreZones least greatest
        → first.now ≡ decimal least → last.now ≡ decimal greatest → ⊥) }
{
    let first = read_small_number(u32::MAX, first)?;
    let last = read_small_number(u32::MAX, last)?;
    if first <= last {
        Some(Zones { first, last })
    } else {
        None
    }
}

/// The ticks from one on and before another.
#[derive(Clone, Copy)]
struct Ticks {
    from: u32,
    to: u32,
}

// The ticks that two words spell.
fn read_window(from: &str, to: &str) -> Option<Ticks>
    ensures from { IfSome result (λ window. from.now ≡ decimal window.from) }
    ensures to { IfSome result (λ window. to.now ≡ decimal window.to) }
    ensures within { IfSome result (λ window. AreTicks window.from window.to) }
    ensures none { IfNone result ((begin end : ℕ) → AreTicks begin end
        → from.now ≡ decimal begin → to.now ≡ decimal end → ⊥) }
{
    let from = read_small_number(LAST_TICK, from)?;
    let to = read_small_number(LAST_TICK, to)?;
    if from < to {
        Some(Ticks { from, to })
    } else {
        None
    }
}
