//! Bytes cut at a byte.

ghost use Rattle.std.specs.Prelude.{IfNone, IfSome};
ghost use Rattle.client_lines.specs.Cuts.{IsCutAt, Lacks};

use memchr::memchr;

/// What stands before the first byte of this kind, and what stands behind it.
pub fn cut_at(byte: u8, bytes: &[u8]) -> Option<(&[u8], &[u8])>
    ensures found { IfSome result (λ parts. IsCutAt byte bytes.now parts.0.now parts.1.now) }
    ensures absent { IfNone result (Lacks byte bytes.now) }
{
    let at = memchr(byte, bytes)?;
    let (front, rest) = bytes.split_at(at);
    let (_, back) = rest.split_at(1);
    Some((front, back))
}
