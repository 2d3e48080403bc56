//! The bytes before the first gate.

ghost use Rattle.std.specs.Prelude.{◌≡◌, ◌+◌, ◌≤◌, ◌++◌, length, take, drop};
ghost use Rattle.grant_journal.specs.Headers.{header_of};

/// How many bytes a header has: eight letters, four bytes of version, and two digests of 32 bytes.
/// The first gate stands behind them.
pub const HEADER_BYTES: usize = 76;

/// The header of a journal for a network's file and a base timetable's
/// file with these SHA-256 digests.
pub fn header(network: &[u8; 32], base: &[u8; 32]) -> [u8; HEADER_BYTES]
    ensures { result ≡ header_of network.now base.now }
{
    let mut bytes = [0; HEADER_BYTES];
    put(&mut bytes, 0, b"STDCMJNL");
    put(&mut bytes, 8, &2u32.to_be_bytes());
    put(&mut bytes, 12, network);
    put(&mut bytes, 44, base);
    bytes
}

// Writes a piece over what stands there.
fn put(bytes: &mut [u8], at: usize, piece: &[u8])
    requires { at + length piece.now ≤ length bytes.old }
    ensures { bytes.new ≡ take at bytes.old ++ piece.now ++ drop (at + length piece.now) bytes.old }
{
    bytes[at..at + piece.len()].copy_from_slice(piece);
}
