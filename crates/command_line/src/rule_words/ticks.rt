//! Ticks as words spell them.

ghost use Rattle.std.specs.Prelude.{◌≡◌, ◌↔◌, ℤ, IfNone, IfSome, IsTrue};
ghost use Rattle.std.specs.Fmt.{signed_decimal};
ghost use Rattle.rail_types.specs.Limits.{IsTick};

use itoa::Buffer;
use rail_types::{Tick, is_tick};

/// The tick whose decimal text this is: digits without leading zeros, behind
/// a minus where it is below 0.
pub(crate) fn read_tick(text: &str) -> Option<Tick>
    ensures spelled { IfSome result (λ tick. text.now ≡ signed_decimal tick) }
    ensures within { IfSome result IsTick }
    ensures none { IfNone result ((tick : ℤ) → IsTick tick → text.now ≡ signed_decimal tick → ⊥) }
{
    let Ok(tick) = text.parse::<i64>() else {
        return None;
    };
    if is_tick(&tick) && is_text_of(&tick, text) {
        Some(tick)
    } else {
        None
    }
}

// Whether a tick has this decimal text.
fn is_text_of(tick: &Tick, text: &str) -> bool
    ensures { IsTrue result ↔ (text.now ≡ signed_decimal tick.now) }
{
    Buffer::new().format(*tick) == text
}
