//! Whether a tick or a name has the form that clients, files and journals may give it.

ghost use Rattle.std.specs.Prelude.{◌≡◌, ◌↔◌, IsTrue};
ghost use Rattle.rail_types.specs.Limits.{IsClientName, IsNameByte, IsTick};
ghost use Rattle.rail_types.specs.Limits.{is_name_byte as name_byte, is_tick as tick_test};

use crate::{MAX_OWNER_BYTES, MAX_TICK, Tick};

/// Whether a client, a file or a journal may name this tick.
pub fn is_tick(tick: &Tick) -> bool
    ensures test { result ≡ tick_test tick.now }
    ensures fact { IsTrue result ↔ IsTick tick.now }
{
    -MAX_TICK <= *tick && *tick <= MAX_TICK
}

/// Whether these bytes are the name of a client: 1 to 32 letters, digits, `_` or `-`.
pub fn is_client_name(name: &[u8]) -> bool
    ensures { IsTrue result ↔ IsClientName name.now }
{
    !name.is_empty() && name.len() <= MAX_OWNER_BYTES && name.iter().all(|byte| is_name_byte(*byte))
}

/// Whether a byte is a letter, a digit, `_` or `-`.
pub fn is_name_byte(byte: u8) -> bool
    ensures test { result ≡ name_byte byte }
    ensures fact { IsTrue result ↔ IsNameByte byte }
{
    matches!(byte, b'A'..=b'Z' | b'a'..=b'z' | b'0'..=b'9' | b'_' | b'-')
}
